//! Refuses memory to each step of rows of steps, and to each call of a keeper, a viewer and a watch, until it is done.
//!
//! It takes all memory that a process can have, and leaves a call nothing, then a little, then a little more. What is printed is
//! also what is printed where nothing is refused; else the status is 6. It is 4 where something is refused for good.
#![tactic(auto)]

mod cells;
mod hoard;
mod rows;
mod seats;
mod stops;
mod texts;
mod told;
mod twins;
mod watches;
mod worlds;

use crate::hoard::Hoard;
use crate::rows::ROWS;
use crate::stops::Stop;
use crate::told::Told;
use crate::watches::run_calls;
use crate::worlds::run_row;
use std::alloc::Global;
use std::process::ExitCode;
use std::sync::Wait;

fn run_all<W: Wait>(rt: &W, alloc: Global, hoard: &mut Hoard, told: &mut Told) -> Result<(), Stop> {
    for row in ROWS {
        run_row(alloc, hoard, row, &mut told.text)?;
    }
    run_calls(rt, alloc, hoard, told)
}

// What is told where nothing is refused comes first, so that the stack has its size before all memory is taken.
fn run_twice<W: Wait>(rt: &W, alloc: Global, told: &mut Told) -> Result<(), Stop> {
    let mut hoard = Hoard::new(alloc);
    let mut plain = Told::new(alloc);
    run_all(rt, alloc, &mut hoard, &mut plain)?;
    hoard.fill()?;
    run_all(rt, alloc, &mut hoard, told)?;
    if told.is_as(&plain) {
        Ok(())
    } else {
        Err(Stop::Apart("something else is told"))
    }
}

fn main(rt: HostRuntime) -> ExitCode {
    let mut told = Told::new(rt.alloc());
    let ended = run_twice(&rt, rt.alloc(), &mut told);
    let Told { text, sent } = told;
    drop(sent);
    let _ = print!(rt; "{text}");
    match ended {
        Ok(()) => ExitCode::from(0),
        Err(Stop::Refused(fault)) => {
            let _ = eprintln!(rt; "refused {fault}");
            ExitCode::from(4)
        }
        Err(Stop::Apart(what)) => {
            let _ = eprintln!(rt; "{what}");
            ExitCode::from(6)
        }
    }
}
