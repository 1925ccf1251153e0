//! The bytes between a server, its clients and its master, for programs in other languages: what stands under `extern "C"` here
//! stands in include/cell_server.h. Nothing is kept between two calls.
#![tactic(auto)]

mod asked;
mod codes;
mod edits;
mod heard;
mod laws;
mod questions;
mod rooms;
mod rows;
mod said;
mod shown;
mod written;

ghost use Rattle.std.specs.Prelude.{[]};
ghost use Rattle.codec.specs.Forms.{Form, read_whole};
ghost use Rattle.codec.specs.Requests.{request};
ghost use Rattle.codec.specs.Outs.{out_message};
ghost use Rattle.hosting.specs.declared.frames.Frame.TheVariants as frames;
ghost use Rattle.hosting.specs.Blocks.{framed};
ghost use Rattle.hosting.specs.Frames.{frame, carried};
ghost use Rattle.hosting.specs.Told.{told};
ghost use Rattle.rows_remote.specs.declared.frames.KeeperAnswer.TheVariants as answers;
ghost use Rattle.rows_remote.specs.Frames.{asked as asked_of_rows, answer, edit_at, framed as framed_answer};
ghost use Rattle.server_exports.specs.Codes.{Shows, Tells};
ghost use Rattle.server_exports.specs.Asked.{asked_parts, asked_name};
ghost use Rattle.server_exports.specs.Said.{said_parts, said_name};
ghost use Rattle.server_exports.specs.Heard.{heard_parts, heard_name, block_text};
ghost use Rattle.server_exports.specs.Written.{store_refused};
ghost use Rattle.server_exports.specs.Questions.{question_parts, question_name};
ghost use Rattle.server_exports.specs.Edits.{edit_parts, edit_texts};
ghost use Rattle.server_exports.specs.Rows.{node_row, session_row, lock_row, front_in};

pub use asked::RequestParts;
use asked::tell_asked;
pub use edits::EditParts;
use edits::tell_edit;
pub use heard::Heard;
use heard::{block_text, tell_heard};
use hosting::{Frame, carry_message, write_frame};
pub use laws::message_stands_behind;
pub use questions::Question;
use questions::tell_question;
use rooms::put;
pub use rows::{LockParts, NodeParts, OwnParts};
use rows::{front_in, lock_row, node_row, session_row};
use rows_remote::{write_kept, write_refused};
pub use said::Said;
use said::tell_said;
use std::alloc::Global;
use written::store_refused;

/// What the client's message of these bytes asks for, by its parts; its name, or its principal, goes into the room, if it fits. 0; or
/// 1 for want of memory, and 2 to 8 for what is wrong with the bytes, the first from the left: then nothing is written.
#[unsafe(no_mangle)]
pub extern "C" fn cell_server_asked(
    alloc: Global,
    message: &[u8],
    out: &mut RequestParts,
    name: &mut [u8],
) -> u32
    ensures { Tells asked_parts asked_name (read_whole request message.now) out.old out.new name.old name.new result }
{
    tell_asked(alloc, message, out, name)
}

/// What the master's message of these bytes says, by its parts: 0; or 1 for want of memory, and 2 to 8 for what is wrong with the
/// bytes: then nothing is written.
#[unsafe(no_mangle)]
pub extern "C" fn cell_server_said(alloc: Global, message: &[u8], out: &mut Said) -> u32
    ensures { Tells said_parts said_name (read_whole out_message message.now) out.old out.new [] [] result }
{
    tell_said(alloc, message, out)
}

/// What a master tells in the block of these bytes, without their number in front, by its parts; its name goes into the room, if it
/// fits. 0; or 1 for want of memory, and 2 to 8 for what is wrong with the bytes: then nothing is written.
#[unsafe(no_mangle)]
pub extern "C" fn cell_server_heard(
    alloc: Global,
    block: &[u8],
    out: &mut Heard,
    name: &mut [u8],
) -> u32
    ensures { Tells heard_parts heard_name (read_whole told block.now) out.old out.new name.old name.new result }
{
    tell_heard(alloc, block, out, name)
}

/// The line that a master tells in the block of these bytes, as it is printed, without LF: 0, and it goes into the room, if it fits,
/// and `length` is how long it is. Else 1 for want of memory, and 2 to 8 for what is wrong with the bytes, 6 where it is another block:
/// then nothing is written.
#[unsafe(no_mangle)]
pub extern "C" fn cell_server_text(
    alloc: Global,
    block: &[u8],
    room: &mut [u8],
    length: &mut usize,
) -> u32
    ensures { Shows (block_text block.now) room.old room.new length.old length.new result }
{
    put(block_text(alloc, block), room, length)
}

/// The frame by which a master comes up at a moment, with the number of its bytes in front: 0, or 1 for want of memory.
#[unsafe(no_mangle)]
pub extern "C" fn cell_server_up(
    alloc: Global,
    moment: u64,
    room: &mut [u8],
    length: &mut usize,
) -> u32
    ensures { Shows (framed frame (frames.Up moment)) room.old room.new length.old length.new result }
{
    put(write_frame(alloc, &Frame::Up(moment)), room, length)
}

/// The frame by which these bytes come to a master at a moment as a client's message, with the number of all its bytes in front: 0; or
/// 1 for want of memory, and 2 where they were 2^32 or more: then nothing is written. The master alone reads them.
#[unsafe(no_mangle)]
pub extern "C" fn cell_server_message(
    alloc: Global,
    moment: u64,
    message: &[u8],
    room: &mut [u8],
    length: &mut usize,
) -> u32
    ensures { Shows (carried moment message.now) room.old room.new length.old length.new result }
{
    put(carry_message(alloc, moment, message), room, length)
}

/// The frame by which a master does what there is to do at a moment, with the number of its bytes in front: 0, or 1 for want of memory.
#[unsafe(no_mangle)]
pub extern "C" fn cell_server_tick(
    alloc: Global,
    moment: u64,
    room: &mut [u8],
    length: &mut usize,
) -> u32
    ensures { Shows (framed frame (frames.Tick moment)) room.old room.new length.old length.new result }
{
    put(write_frame(alloc, &Frame::Tick(moment)), room, length)
}

/// The frame by which a master goes, with the number of its bytes in front: 0, or 1 for want of memory.
#[unsafe(no_mangle)]
pub extern "C" fn cell_server_down(alloc: Global, room: &mut [u8], length: &mut usize) -> u32
    ensures { Shows (framed frame frames.Down) room.old room.new length.old length.new result }
{
    put(write_frame(alloc, &Frame::Down), room, length)
}

/// The bytes of a master's reply to a call, by its client, its epoch and its number, that the store refused it: 0; or 1 for want of
/// memory, and 7 where no client or no call has such a number: then nothing is written.
#[unsafe(no_mangle)]
pub extern "C" fn cell_server_store_refused(
    alloc: Global,
    client: u64,
    epoch: u64,
    number: u64,
    room: &mut [u8],
    length: &mut usize,
) -> u32
    ensures { Shows (store_refused client epoch number) room.old room.new length.old length.new result }
{
    put(store_refused(alloc, client, epoch, number), room, length)
}

/// What a master asks of the program that keeps its rows, of the bytes of a question, without their number in front: 0; or 1 for want of
/// memory, and 2 to 8 for what is wrong with the bytes: then nothing is written.
#[unsafe(no_mangle)]
pub extern "C" fn cell_server_rows_asked(alloc: Global, block: &[u8], out: &mut Question) -> u32
    ensures { Tells question_parts question_name (read_whole asked_of_rows block.now) out.old out.new [] [] result }
{
    tell_question(alloc, block, out)
}

/// The edit at the front of these bytes, by its parts; its texts go into the room, one after the other, if they fit. 0; or 1 for want
/// of memory, and 2 to 8 for what is wrong with the bytes: then nothing is written.
#[unsafe(no_mangle)]
pub extern "C" fn cell_server_rows_edit(
    alloc: Global,
    edits: &[u8],
    out: &mut EditParts,
    texts: &mut [u8],
) -> u32
    ensures { Tells edit_parts edit_texts (edit_at edits.now) out.old out.new texts.old texts.new result }
{
    tell_edit(alloc, edits, out, texts)
}

/// What stands in front of the rows that a master is told, with the number of all bytes at its front: 0; or 1 for want of memory, 2
/// where all were 2^32 bytes or more, 7 for a secret that isn't 32 bytes, and 8 for a cell that is no component: then nothing is written.
#[unsafe(no_mangle)]
pub extern "C" fn cell_server_rows_front(
    alloc: Global,
    parts: &OwnParts,
    cell: &[u8],
    secret: &[u8],
    room: &mut [u8],
    length: &mut usize,
) -> u32
    ensures { Shows (front_in parts.now cell.now secret.now) room.old room.new length.old length.new result }
{
    put(front_in(alloc, parts, cell, secret), room, length)
}

/// The row of a node, as it stands among those that a master is told: 0; or 1 for want of memory, 2 for 2^32 bytes or more, 6 for another
/// number that is a choice, and 8 for a text that is no name, or no component: then nothing is written.
#[unsafe(no_mangle)]
pub extern "C" fn cell_server_rows_node(
    alloc: Global,
    parts: &NodeParts,
    name: &[u8],
    read: &[u8],
    write: &[u8],
    change: &[u8],
    content: &[u8],
    room: &mut [u8],
    length: &mut usize,
) -> u32
    ensures { Shows (node_row parts.now name.now read.now write.now change.now content.now) room.old room.new length.old length.new result }
{
    put(
        node_row(alloc, parts, name, read, write, change, content),
        room,
        length,
    )
}

/// The row of a client's session, which is live where that isn't 0: 0; or 1 for want of memory, 2 for 2^32 bytes or more, and 8 for a text
/// that is no principal: then nothing is written.
#[unsafe(no_mangle)]
pub extern "C" fn cell_server_rows_session(
    alloc: Global,
    client: u64,
    principal: &[u8],
    live: u64,
    room: &mut [u8],
    length: &mut usize,
) -> u32
    ensures { Shows (session_row client principal.now live) room.old room.new length.old length.new result }
{
    put(session_row(alloc, client, principal, live), room, length)
}

/// The row of a lock: 0; or 1 for want of memory, and 6 for another state: then nothing is written.
#[unsafe(no_mangle)]
pub extern "C" fn cell_server_rows_lock(
    alloc: Global,
    parts: &LockParts,
    room: &mut [u8],
    length: &mut usize,
) -> u32
    ensures { Shows (lock_row parts.now) room.old room.new length.old length.new result }
{
    put(lock_row(alloc, parts), room, length)
}

/// The answer that the edits of a commit stand, with the number of its bytes in front: 0, or 1 for want of memory.
#[unsafe(no_mangle)]
pub extern "C" fn cell_server_rows_kept(alloc: Global, room: &mut [u8], length: &mut usize) -> u32
    ensures { Shows (framed_answer answer answers.Kept) room.old room.new length.old length.new result }
{
    put(write_kept(alloc), room, length)
}

/// The answer that they don't, with the number of its bytes in front: 0, or 1 for want of memory.
#[unsafe(no_mangle)]
pub extern "C" fn cell_server_rows_refused(
    alloc: Global,
    room: &mut [u8],
    length: &mut usize,
) -> u32
    ensures { Shows (framed_answer answer answers.Refused) room.old room.new length.old length.new result }
{
    put(write_refused(alloc), room, length)
}
