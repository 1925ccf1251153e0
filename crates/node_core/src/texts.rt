//! Parts of the printed texts.
ghost use Rattle.std.specs.Prelude.{◌≡◌, ◌++◌, Some, codes, decimal};
ghost use Rattle.std.specs.Fmt.{DisplaysOnOk};
ghost use Rattle.std.specs.List.{flat_map};
ghost use Rattle.node_core.specs.Texts.{hex_text, hex_pair, header_text, acls_text, names_text};

use crate::kinds::Kind;
use crate::nodes::Node;
use crate::stats::Stat;
use names_cell::Component;
use std::fmt;

/// The kind of a node and its numbers.
#[derive(Clone, Copy)]
pub(crate) struct Header {
    kind: Kind,
    instance: u64,
    content_generation: u64,
    acl_generation: u64,
}

impl Header {
    pub(crate) fn of_node(node: &Node) -> Header
        ensures kind { result.kind ≡ node.now.kind }
        ensures instance { result.instance ≡ node.now.instance }
        ensures content { result.content_generation ≡ node.now.content_generation }
        ensures acl { result.acl_generation ≡ node.now.acl_generation }
    {
        Header {
            kind: node.kind,
            instance: node.instance,
            content_generation: node.content_generation,
            acl_generation: node.acl_generation,
        }
    }

    pub(crate) fn of_stat(stat: &Stat) -> Header
        ensures kind { result.kind ≡ stat.now.kind }
        ensures instance { result.instance ≡ stat.now.instance }
        ensures content { result.content_generation ≡ stat.now.content_generation }
        ensures acl { result.acl_generation ≡ stat.now.acl_generation }
    {
        Header {
            kind: stat.kind,
            instance: stat.instance,
            content_generation: stat.content_generation,
            acl_generation: stat.acl_generation,
        }
    }
}

impl fmt::Display for Header {
    ghost output = { λ x. Some (header_text x.kind x.instance x.content_generation x.acl_generation) };

    fn fmt<W: fmt::Write>(&self, f: &mut fmt::Formatter<W>) -> fmt::Result {
        let kind = self.kind;
        let instance = self.instance;
        let content = self.content_generation;
        let acl = self.acl_generation;
        write!(f, "{kind} {instance} {content} {acl}")
    }
}

/// The names of the three ACLs of a node.
#[derive(Clone, Copy)]
pub(crate) struct AclNamesText<'a> {
    read: &'a Component,
    write: &'a Component,
    change: &'a Component,
}

impl<'a> AclNamesText<'a> {
    pub(crate) fn of_node(node: &'a Node) -> AclNamesText<'a>
        ensures read { result.read.now ≡ node.now.read }
        ensures write { result.write.now ≡ node.now.write }
        ensures change { result.change.now ≡ node.now.change }
    {
        AclNamesText {
            read: &node.read,
            write: &node.write,
            change: &node.change,
        }
    }

    pub(crate) fn of_stat(stat: &'a Stat) -> AclNamesText<'a>
        ensures read { result.read.now ≡ stat.now.read }
        ensures write { result.write.now ≡ stat.now.write }
        ensures change { result.change.now ≡ stat.now.change }
    {
        AclNamesText {
            read: &stat.read,
            write: &stat.write,
            change: &stat.change,
        }
    }
}

impl fmt::Display for AclNamesText<'_> {
    ghost output = { λ x. Some (acls_text x.read.now x.write.now x.change.now) };

    fn fmt<W: fmt::Write>(&self, f: &mut fmt::Formatter<W>) -> fmt::Result {
        let read = self.read;
        let write = self.write;
        let change = self.change;
        write!(f, "{read} {write} {change}")
    }
}

/// The first 16 bytes of a content; a dash for none.
#[derive(Clone, Copy)]
pub(crate) struct Hex<'a>(pub(crate) &'a [u8]);

impl fmt::Display for Hex<'_> {
    ghost output = { λ x. Some (hex_text x.0.now) };

    fn fmt<W: fmt::Write>(&self, f: &mut fmt::Formatter<W>) -> fmt::Result {
        if self.0.is_empty() {
            return f.write_str("-");
        }
        let shown = HexBytes(&self.0[..self.0.len().min(16)]);
        write!(f, "{shown}")
    }
}

/// All of these bytes, two lower case hexadecimal digits each.
#[derive(Clone, Copy)]
pub(crate) struct HexBytes<'a>(pub(crate) &'a [u8]);

impl fmt::Display for HexBytes<'_> {
    ghost output = { λ x. Some (flat_map hex_pair x.0.now) };

    fn fmt<W: fmt::Write>(&self, f: &mut fmt::Formatter<W>) -> fmt::Result {
        for b in self.0 {
            let byte = *b;
            write!(f, "{byte:02x}")?;
        }
        Ok(())
    }
}

/// Names, each behind a space.
#[derive(Clone, Copy)]
pub(crate) struct Listed<'a>(pub(crate) &'a [Component]);

impl fmt::Display for Listed<'_> {
    ghost output = { λ x. Some (names_text x.0.now) };

    fn fmt<W: fmt::Write>(&self, f: &mut fmt::Formatter<W>) -> fmt::Result {
        for name in self.0 {
            write!(f, " {name}")?;
        }
        Ok(())
    }
}

/// A word, and a number behind it.
pub(crate) fn write_number<W: fmt::Write>(
    f: &mut fmt::Formatter<W>,
    word: &str,
    number: u64,
) -> fmt::Result
    ensures { DisplaysOnOk W.write_str_gives f.old result (Some (word.now ++ decimal number)) f.new }
{
    write!(f, "{word}{number}")
}

/// A word, and two numbers behind it.
pub(crate) fn write_numbers<W: fmt::Write>(
    f: &mut fmt::Formatter<W>,
    word: &str,
    first: u64,
    second: u64,
) -> fmt::Result
    ensures { DisplaysOnOk W.write_str_gives f.old result (Some (word.now ++ (decimal first ++ (codes " " ++ decimal second)))) f.new }
{
    write!(f, "{word}{first} {second}")
}
