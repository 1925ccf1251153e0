//! What a master asks of the program that keeps its rows, by its parts.
ghost use Rattle.std.specs.Prelude.{◌≡◌, Ok, []};
ghost use Rattle.codec.specs.Forms.{Form, read_whole};
ghost use Rattle.rows_remote.specs.Frames.{asked};
ghost use Rattle.server_exports.specs.Codes.{Tells};
ghost use Rattle.server_exports.specs.Questions.{question_parts, question_name};

use crate::codes::fault_code;
use rows_remote::{EDITS_AT, KeeperQuestion, read_asked};
use std::alloc::Global;

/// What a master asks of the program that keeps its rows, in plain numbers; what doesn't belong to its kind is 0. In C a struct.
#[repr(C)]
#[derive(Clone, Copy)]
pub struct Question {
    /// 1 all rows, 2 that edits be done.
    pub what: u32,
    /// Where the first of the edits stands.
    pub edits_at: u32,
    /// Of a commit.
    pub number: u64,
    /// How many edits it has.
    pub edits: u64,
}

// A question by its parts, of its bytes; or what is wrong with them.
pub(crate) fn tell_question(alloc: Global, block: &[u8], out: &mut Question) -> u32
    ensures { Tells question_parts question_name (read_whole asked block.now) out.old out.new [] [] result }
{
    match read_asked(alloc, block) {
        Ok(question) => {
            *out = question_parts(&question);
            drop(question);
            0
        }
        Err(fault) => fault_code(fault),
    }
}

fn question_parts(question: &KeeperQuestion) -> Question
    ensures { result ≡ question_parts question.now }
{
    match question {
        KeeperQuestion::Load => Question {
            what: 1,
            edits_at: 0,
            number: 0,
            edits: 0,
        },
        KeeperQuestion::Commit(number, edits) => Question {
            what: 2,
            edits_at: EDITS_AT,
            number: *number,
            edits: edits.len() as u64,
        },
    }
}
