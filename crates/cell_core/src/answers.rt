//! How often the answer of a step is wanted.
ghost use Rattle.std.specs.Prelude.{◌≡◌, IfOk};

use master_parts::Taken;
use std::alloc::AllocError;
use std::marker::Model;

/// The answer of a step as often as it is wanted. It is made before the step has any effect, so that want of memory
/// leaves all as it was.
pub trait Answers: Drop {
    ghost use Rattle.master_parts.specs.declared.pending.Taken.{Taken};

    /// The answer, of which all are copies.
    ghost answer: { Self → Taken };

    /// All copies of an answer.
    fn of(taken: Taken) -> Result<Self, AllocError>
        ensures { IfOk result (λ answers. answer answers ≡ taken) };
}

impl Answers for Taken {
    ghost answer = { λ taken. taken };

    fn of(taken: Taken) -> Result<Taken, AllocError> {
        Ok(taken)
    }
}

/// An answer three times. To a contract it is that answer.
#[derive(Drop)]
pub struct Thrice {
    first: Taken,
    second: Taken,
    third: Taken,
}

impl Model for Thrice {
    ghost use Rattle.std.specs.Prelude.{◌≡◌};
    ghost use Rattle.master_parts.specs.declared.pending.Taken.{Taken};

    ghost Value = { Taken };

    ghost view = { λ t. t.first };

    ghost invariant = { λ t. (t.second ≡ t.first) × (t.third ≡ t.first) };
}

impl Thrice {
    /// The three answers.
    pub fn all(self) -> (Taken, Taken, Taken)
        ensures first { result.0 ≡ self }
        ensures second { result.1 ≡ self }
        ensures third { result.2 ≡ self }
    {
        let Thrice {
            first,
            second,
            third,
        } = self;
        (first, second, third)
    }
}

impl Answers for Thrice {
    ghost answer = { λ answers. answers };

    fn of(taken: Taken) -> Result<Thrice, AllocError> {
        let second = copy_of(&taken)?;
        let third = copy_of(&taken)?;
        Ok(Thrice {
            first: taken,
            second,
            third,
        })
    }
}

// A copy of an answer.
fn copy_of(taken: &Taken) -> Result<Taken, AllocError>
    ensures { IfOk result (λ copy. copy ≡ taken.now) }
{
    let lines = taken.lines.clone()?;
    let outs = taken.outs.clone()?;
    Ok(Taken { lines, outs })
}
