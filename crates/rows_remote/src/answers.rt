//! What is answered, of its bytes.
ghost use Rattle.std.specs.Prelude.{◌≡◌, Ok, IfOk};
ghost use Rattle.collections.specs.Results.{Gives};
ghost use Rattle.codec.specs.Forms.{Form, Reads, written, read_whole};
ghost use Rattle.rows_remote.specs.Frames.{answer, answer_behind};

use crate::frames::KeeperAnswer;
use crate::inputs::{AnswerInput, begin};
use crate::kinds::{ANSWER_KINDS, KeeperAnswerKind};
use crate::rows::read_all_rows;
use codec::WireFault;
use std::alloc::Global;

/// The answer of all of these bytes, without the number in front; or what is wrong with them, the first from the left. It
/// takes memory for what stands there, whatever a count or a length in the bytes says.
pub fn read_answer(alloc: Global, bytes: &[u8]) -> Result<KeeperAnswer, WireFault>
    ensures answer { Gives WireFault.NoMemory result (read_whole answer bytes.now) }
    ensures back { IfOk result (λ told. written answer told ≡ Ok bytes.now) }
{
    let mut input = begin(bytes)?;
    let told = read_body(alloc, &mut input)?;
    if !input.is_empty() {
        return Err(WireFault::Extra);
    }
    Ok(told)
}

#[tactic(auto, unfolding(crate::specs::Frames::answer))]
fn read_body(alloc: Global, input: &mut AnswerInput) -> Result<KeeperAnswer, WireFault>
    ensures { Reads (λ x. x) result input.new (answer.read input.old) }
{
    let kind = input.choice(&ANSWER_KINDS)?;
    read_body_of(alloc, input, kind)
}

fn read_body_of(
    alloc: Global,
    input: &mut AnswerInput,
    kind: KeeperAnswerKind,
) -> Result<KeeperAnswer, WireFault>
    ensures { Reads (λ x. x) result input.new (answer_behind kind input.old) }
{
    Ok(match kind {
        KeeperAnswerKind::Rows => KeeperAnswer::Rows(read_all_rows(alloc, input)?),
        KeeperAnswerKind::Kept => KeeperAnswer::Kept,
        KeeperAnswerKind::Refused => KeeperAnswer::Refused,
    })
}
