//! What the bytes of a handle show.
ghost use Rattle.std.specs.Prelude.{◌≡◌, ◌≤◌, ◌+◌, length};
ghost use Rattle.tags_cell.specs.Handles.{number_at};
ghost use Rattle.server_exports.specs.Shown.{shown_instance, shown_name};

// The instance that stands in its place; 0 where the bytes end before.
pub(crate) fn shown_instance(bytes: &[u8]) -> u64
    ensures { result ≡ shown_instance bytes.now }
{
    if bytes.len() < 50 {
        return 0;
    }
    number_at(25, bytes)
}

// The number in the eight bytes from this place.
#[tactic(auto, unfolding(tags_cell::specs::Handles::number_at))]
fn number_at(place: usize, bytes: &[u8]) -> u64
    requires { place + 8 ≤ length bytes.now }
    ensures { result ≡ number_at place bytes.now }
{
    match bytes[place..].first_chunk::<8>() {
        Some(number) => u64::from_be_bytes(*number),
        None => 0,
    }
}

// The name that stands in its place, whatever it is; empty where the bytes end before.
#[tactic(auto, unfolding(tags_cell::specs::Handles::name_in))]
pub(crate) fn shown_name(bytes: &[u8]) -> &[u8]
    ensures { result.now ≡ shown_name bytes.now }
{
    if bytes.len() <= 50 {
        return &[];
    }
    &bytes[42..bytes.len() - 8]
}
