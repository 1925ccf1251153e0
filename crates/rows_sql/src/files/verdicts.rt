//! What is said of a store.
ghost use Rattle.std.specs.Prelude.{◌≡◌, Ok, Err, IfOk, string_bytes};
ghost use Rattle.rows_sql.specs.Verdicts.{verdict_text};

use node_core::{Fault, Line};
use rows_cell::{Counts, StoreFault};
use std::alloc::{AllocError, Global};

/// The line that a test of a store prints.
pub fn verdict(alloc: Global, tested: &Result<Counts, StoreFault>) -> Result<String, AllocError>
    ensures { IfOk result (λ text. string_bytes text ≡ verdict_text tested.now) }
{
    match tested {
        Ok(counts) => sound_line(alloc, counts),
        Err(fault) => refused_line(alloc, *fault),
    }
}

fn sound_line(alloc: Global, counts: &Counts) -> Result<String, AllocError>
    ensures { IfOk result (λ text. string_bytes text ≡ verdict_text (Ok counts.now)) }
{
    let Counts {
        epoch,
        nodes,
        sessions,
        locks,
    } = *counts;
    format!(in alloc; "sound epoch {epoch} nodes {nodes} sessions {sessions} locks {locks}")
}

fn refused_line(alloc: Global, fault: StoreFault) -> Result<String, AllocError>
    ensures { IfOk result (λ text. string_bytes text ≡ verdict_text (Err fault)) }
{
    let line = Line::Refused(Fault::from(fault));
    format!(in alloc; "{line}")
}
