//! Lines, and lists of them.
ghost use Rattle.std.specs.Prelude.{◌≡◌, ◌++◌, ◌∷◌, [], IfOk};
ghost use Rattle.std.specs.Option.{option_to_list};
ghost use Rattle.cache_core.specs.Standings.{turn_line};

use cache_core::{SessionTrust, Shared};
use collections::Items;
use names_cell::Name;
use node_core::{Answer, Line, View};
use std::alloc::{AllocError, Global};

/// A line by itself.
pub fn one_line(alloc: Global, line: Line) -> Result<Items<Line>, AllocError>
    ensures { IfOk result (λ lines. lines ≡ line ∷ []) }
{
    pushed(Items::new(alloc), line)
}

/// These lines, and one more after them.
pub fn pushed(lines: Items<Line>, line: Line) -> Result<Items<Line>, AllocError>
    ensures { IfOk result (λ more. more ≡ lines ++ line ∷ []) }
{
    let mut lines = lines;
    lines.push(line)?;
    Ok(lines)
}

/// The line that is printed where a client that stood so before stands like this from here on, if there is one.
pub fn turn_lines(
    alloc: Global,
    client: u64,
    former: SessionTrust,
    standing: SessionTrust,
) -> Result<Items<Line>, AllocError>
    ensures { IfOk result (λ lines. lines ≡ option_to_list (turn_line client former standing)) }
{
    let mut lines = Items::new(alloc);
    if let Some(line) = standing.turn_line(client, former) {
        lines.push(line)?;
    }
    Ok(lines)
}

/// This line, and the one that tells that an Open ended, as call 0.
pub fn opened_lines(
    alloc: Global,
    client: u64,
    line: Line,
    opened: u64,
) -> Result<Items<Line>, AllocError>
    ensures { IfOk result (λ lines. lines ≡ line ∷ Line.Done client 0 (Answer.Opened opened) ∷ []) }
{
    let mut lines = one_line(alloc, line)?;
    lines.push(Line::Done(client, 0, Answer::Opened(opened)))?;
    Ok(lines)
}

/// The line that tells what is cached under a name.
pub fn served_line(
    client: u64,
    name: &Name,
    entry: &Option<Shared<View>>,
) -> Result<Line, AllocError>
    ensures { IfOk result (λ line. line ≡ Line.Served client name.now entry.now) }
{
    let name = name.clone()?;
    let entry = match entry {
        Some(view) => Some(view.get().clone()?),
        None => None,
    };
    Ok(Line::Served(client, name, entry))
}
