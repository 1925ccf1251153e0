//! ACL files.
ghost use Rattle.std.specs.Prelude.{◌≡◌, Ok, Err, if◌then◌else◌};
ghost use Rattle.std.specs.List.{list_any};
ghost use Rattle.std.specs.Str.{bytes_eq};
ghost use Rattle.names_cell.specs.Text.{is_acl_file, text_lines};

use crate::faults::NameFault;
use crate::grammar;
use crate::principals::Principal;
use std::marker::Model;

/// The content of an ACL file, read where it lies. To a contract it is the list of its lines, each of them a
/// principal.
#[derive(Debug, Drop)]
pub struct AclList<'a> {
    content: &'a [u8],
}

impl<'a> Model for AclList<'a> {
    ghost use Rattle.std.specs.Prelude.{◌≡◌, List, ℕ, true};
    ghost use Rattle.names_cell.specs.Text.{is_acl_file, text_lines};

    ghost Value = { List (List ℕ) };

    ghost view = { λ a. text_lines a.content.now };

    ghost invariant = { λ a. is_acl_file a.content.now ≡ true };
}

impl<'a> AclList<'a> {
    /// Reads the content of an ACL file: principals, one a line. Each line is ended by LF, which the last may lack.
    /// One bad line refuses the whole file. An empty file lists nobody. Takes no memory.
    pub fn read(content: &'a [u8]) -> Result<AclList<'a>, NameFault>
        ensures { result ≡ (if is_acl_file content.now then Ok (text_lines content.now) else Err NameFault.BadAcl) }
    {
        if !grammar::is_acl_file(content) {
            return Err(NameFault::BadAcl);
        }
        Ok(AclList { content })
    }

    /// Whether the principal stands on one of the lines. Takes no memory.
    pub fn lists(&self, principal: &Principal) -> bool
        ensures { result ≡ list_any (λ line. bytes_eq line principal.now) self.now }
    {
        let wanted = principal.as_str().as_bytes();
        self.content
            .split(|b| *b == b'\n')
            .any(|line| line == wanted)
    }
}
