//! Steps out of texts, and texts of what is printed.
use crate::stops::Stop;
use collections::Items;
use node_core::Line;
use scripts::{Parsed, read_step};
use std::alloc::{AllocError, Global};
use world_steps::Step;

fn step_of(alloc: Global, line: &str) -> Result<Step, Stop> {
    match read_step(alloc, line)? {
        Parsed::Step(step) => Ok(step),
        parsed => {
            drop(parsed);
            Err(Stop::Apart("a row has words that aren't a step"))
        }
    }
}

/// The steps of a row, with `; ` between them.
pub(crate) fn steps_of(alloc: Global, row: &str) -> Result<Vec<Step>, Stop> {
    let mut steps = Vec::new(alloc);
    for line in row.split("; ") {
        let step = step_of(alloc, line)?;
        steps.push(step)?;
    }
    Ok(steps)
}

/// So many of a row's steps are refused at least: half of them.
pub(crate) fn half_of(steps: &[Step]) -> u64 {
    (steps.len() / 2) as u64
}

/// Writes a line for each.
pub(crate) fn write_lines(text: &mut String, lines: &Items<Line>) -> Result<(), AllocError> {
    for line in lines.as_slice() {
        write!(text, "{line}\n")?;
    }
    Ok(())
}
