//! A crash in each coming up and each sweep of a script in turn, its commit kept or lost.
use crate::steps::{push_shown, rows_in, taken, world_of};
use crate::troubles::Trouble;
use node_core::Line;
use rows_cell::{ListRecords, Settings};
use std::alloc::Global;
use world_cell::World;
use world_steps::{Commit, Step};

// A run of steps that is cut.
#[derive(Clone, Copy)]
struct Cut<'a> {
    alloc: Global,
    settings: &'a Settings,
    steps: &'a [Step],
}

// What comes behind the steps: one that is cut, and a master that comes up.
#[derive(Clone, Copy)]
struct Last<'a> {
    cut: Option<&'a Step>,
    comes_up: bool,
}

// The rows behind steps, and what the last ones print.
type Left = (String, String);

// The step as a crash cuts it; none where it is neither a coming up nor a sweep.
fn cut_of(step: &Step, commit: Commit) -> Option<Step> {
    match step {
        Step::Up(moment) => Some(Step::CutUp(*moment, commit)),
        Step::Sweep => Some(Step::CutSweep(commit)),
        _ => None,
    }
}

// What a step prints, or why it is refused.
fn push_step(
    lines: &mut String,
    world: &mut World<ListRecords>,
    step: &Step,
) -> Result<(), Trouble> {
    match world.step(step) {
        Ok(told) => push_shown(lines, &told)?,
        Err(fault) => write!(lines, "{}\n", Line::Refused(fault))?,
    }
    Ok(())
}

fn push_cut(
    lines: &mut String,
    world: &mut World<ListRecords>,
    steps: &[Step],
    last: Last<'_>,
) -> Result<(), Trouble> {
    drop(world.run(steps)?);
    if let Some(cut) = last.cut {
        push_step(lines, world, cut)?;
    }
    if last.comes_up {
        let up = Step::Up(0);
        let done = push_step(lines, world, &up);
        drop(up);
        done?;
    }
    Ok(())
}

impl<'a> Cut<'a> {
    // What so many steps leave, and the last ones behind them.
    fn left(&self, count: usize, last: Last<'_>) -> Result<Left, Trouble> {
        let mut lines = String::new(self.alloc);
        let mut world = world_of(self.alloc, self.settings)?;
        let steps = self.steps.get(..count).unwrap_or(self.steps);
        let done = push_cut(&mut lines, &mut world, steps, last);
        let records = world.close();
        done?;
        Ok((rows_in(self.alloc, records)?, lines))
    }

    // Whether the step behind so many others, cut by a crash, leaves the rows behind so many steps; prints `down` at last, and where
    // its commit is lost nothing else; and the next master comes up.
    fn leaves(
        &self,
        count: usize,
        cut: &Step,
        rows_behind: usize,
        is_silent: bool,
    ) -> Result<bool, Trouble> {
        let none = Last {
            cut: None,
            comes_up: false,
        };
        let alone = Last {
            cut: Some(cut),
            comes_up: false,
        };
        let (rows, _) = self.left(rows_behind, none)?;
        let (cut_rows, lines) = self.left(count, alone)?;
        let (_, more) = self.left(
            count,
            Last {
                comes_up: true,
                ..alone
            },
        )?;
        Ok(
            rows.as_str() == cut_rows.as_str()
                && is_down(lines.as_str(), is_silent)
                && is_up_behind(lines.as_str(), more.as_str()),
        )
    }

    // What is wrong where a crash cuts the step behind so many others, if anything.
    fn wrong(&self, count: usize, step: &Step) -> Result<Option<&'static str>, Trouble> {
        if let Some(cut) = cut_of(step, Commit::Lost) {
            let is_so = self.leaves(count, &cut, count, true);
            drop(cut);
            if !is_so? {
                return Ok(Some("lost"));
            }
        }
        if let Some(cut) = cut_of(step, Commit::Kept) {
            let is_so = self.leaves(count, &cut, count.saturating_add(1), false);
            drop(cut);
            if !is_so? {
                return Ok(Some("kept"));
            }
        }
        Ok(None)
    }

    fn all(&self, text: &mut String) -> Result<u64, Trouble> {
        let mut events = 0u64;
        for (count, step) in self.steps.iter().enumerate() {
            if matches!(step, Step::Up(_) | Step::Sweep) {
                events = events.saturating_add(1);
            }
            if let Some(word) = self.wrong(count, step)? {
                write!(text, "event {events}, its commit {word}: not whole\n")?;
            }
        }
        Ok(events)
    }
}

// Whether lines end with that of a master that went down, or are it alone.
fn is_down(lines: &str, is_alone: bool) -> bool {
    lines == "down\n" || (!is_alone && lines.ends_with("\ndown\n"))
}

// Whether lines go on with that of a master that came up, and no other.
fn is_up_behind(lines: &str, more: &str) -> bool {
    match more.strip_prefix(lines) {
        Some(rest) => match rest.strip_suffix('\n') {
            Some(line) => line.starts_with("up ") && !line.contains('\n'),
            None => false,
        },
        None => false,
    }
}

/// Cuts each coming up and each sweep of a script, those of a settling too, and counts them; where one leaves other rows than
/// it may, it is told.
pub(crate) fn cuts_left(
    alloc: Global,
    settings: &Settings,
    script: &[u8],
) -> Result<Vec<u8>, Trouble> {
    let steps = taken(alloc, settings, script)?;
    let mut text = String::new(alloc);
    let cut = Cut {
        alloc,
        settings,
        steps: steps.as_slice(),
    };
    let events = cut.all(&mut text)?;
    write!(text, "cuts {events} events\n")?;
    Ok(text.into_bytes())
}
