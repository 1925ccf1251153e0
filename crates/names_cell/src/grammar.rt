//! The tests of the grammar.
ghost use Rattle.std.specs.Prelude.{◌≡◌, ◌==◌, if◌then◌else◌};
ghost use Rattle.std.specs.List.{list_all, slice_split, before_first, after_last};
ghost use Rattle.std.specs.Option.{option_map};
ghost use Rattle.names_cell.specs.Text.{is_component_byte, is_component, is_name, is_slash, is_line_feed, is_acl_file, front_of};

// Lower case letters, digits, dots, underscores and dashes.
fn has_component_bytes(text: &[u8]) -> bool
    ensures { result ≡ list_all is_component_byte text.now }
{
    text.iter().all(|b| matches!(*b, b'a'..=b'z' | b'0'..=b'9' | b'.' | b'_' | b'-'))
}

pub(crate) fn is_component(text: &[u8]) -> bool
    ensures { result ≡ is_component text.now }
{
    if text.is_empty() || text.len() > 64 || matches!(text, b"." | b"..") {
        return false;
    }
    has_component_bytes(text)
}

pub(crate) fn is_name(text: &str) -> bool
    ensures { result ≡ is_name text.now }
{
    let Some(path) = text.strip_prefix("/ls/") else {
        return false;
    };
    if text.len() > 512 {
        return false;
    }
    are_components(path)
}

// Whether what stands between the slashes is a component each time.
fn are_components(path: &str) -> bool
    ensures { result ≡ list_all is_component (slice_split is_slash path.now) }
{
    path.split('/').all(|part| is_component(part.as_bytes()))
}

pub(crate) fn is_acl_file(content: &[u8]) -> bool
    ensures { result ≡ is_acl_file content.now }
{
    if content.is_empty() {
        return true;
    }
    let last = content.len() - 1;
    if content[last] == b'\n' {
        are_principals(&content[..last])
    } else {
        are_principals(content)
    }
}

// Whether what stands between the LFs is a principal each time.
fn are_principals(lines: &[u8]) -> bool
    ensures { result ≡ list_all is_component (slice_split is_line_feed lines.now) }
{
    lines.split(|b| *b == b'\n').all(is_component)
}

// What stands before the last slash.
pub(crate) fn front_of(path: &str) -> Option<&str>
    ensures { option_map (λ t. t.now) result ≡ front_of path.now }
{
    let at = path.rfind('/')?;
    Some(&path[..at])
}

// What stands behind the last slash, or all where there is none.
pub(crate) fn last_of(path: &str) -> &str
    ensures { result.now ≡ after_last is_slash path.now }
{
    match path.rfind('/') {
        Some(at) => &path[at + 1..],
        None => path,
    }
}

// What stands before the first slash, or all where there is none.
pub(crate) fn first_of(path: &str) -> &str
    ensures { result.now ≡ before_first is_slash path.now }
{
    match path.split_once('/') {
        Some((first, _)) => first,
        None => path,
    }
}
