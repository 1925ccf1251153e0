//! The lines that are printed.
ghost use Rattle.std.specs.Prelude.{◌≡◌, ◌∷◌, [], ◌++◌, OnOk};
ghost use Rattle.codec.specs.Fields.{word};
ghost use Rattle.codec.specs.Forms.{Reads, Appends, Form};
ghost use Rattle.codec.specs.Lines.{change, put_fields, mod_behind, seen, optional_seen, answer, answer_behind, applied_fields, granted_fields, locked_fields, two_words, served_fields, done_fields, told_fields, line, line_behind};

use crate::choices::{put_lock_mode, read_lock_mode};
use crate::events::{put_event, read_event};
use crate::faults::WireFault;
use crate::inputs::{FLAGS, Input};
use crate::kinds::{ANSWER_KINDS, AnswerKind, LINE_KINDS, LineKind, MOD_KINDS, ModKind};
use crate::outputs::{put_block, put_byte, put_word};
use crate::refusals::{put_fault, read_fault};
use crate::results::{put_components, put_node, put_stat, read_components, read_node, read_stat};
use crate::texts::{put_name, read_bytes, read_name};
use names_cell::Name;
use node_core::{Answer, Event, Line, Listing, LockMode, Mod, Node, View};
use std::alloc::{AllocError, Global};

#[tactic(auto, unfolding(crate::specs::Lines::change))]
fn read_change(alloc: Global, input: &mut Input) -> Result<Mod, WireFault>
    ensures { Reads (λ x. x) result input.new (change.read input.old) }
{
    let kind = input.choice(&MOD_KINDS)?;
    read_change_of(alloc, input, kind)
}

fn read_change_of(alloc: Global, input: &mut Input, kind: ModKind) -> Result<Mod, WireFault>
    ensures { Reads (λ x. x) result input.new (mod_behind kind input.old) }
{
    Ok(match kind {
        ModKind::Put => Mod::Put(read_name(alloc, input)?, read_node(alloc, input)?),
        ModKind::Gone => Mod::Gone(read_name(alloc, input)?),
    })
}

#[tactic(auto, unfolding(crate::specs::Lines::change))]
fn put_change(out: &mut Vec<u8>, made: &Mod) -> Result<(), AllocError>
    ensures { OnOk result (Appends change made.now out.old.items out.new.items) }
{
    match made {
        Mod::Put(name, node) => put_put(out, name, node),
        Mod::Gone(name) => {
            put_byte(out, 1)?;
            put_name(out, name)
        }
    }
}

// The kind of a change that puts a node, the name and the node.
fn put_put(out: &mut Vec<u8>, name: &Name, node: &Node) -> Result<(), AllocError>
    ensures { OnOk result (Appends put_fields (name.now, node.now) (out.old.items ++ 0 ∷ []) out.new.items) }
{
    put_byte(out, 0)?;
    put_name(out, name)?;
    put_node(out, node)
}

// A node and the names that are listed of it, whatever it is.
#[tactic(auto, unfolding(crate::specs::Lines::seen))]
fn read_seen(alloc: Global, input: &mut Input) -> Result<View, WireFault>
    ensures { Reads (λ x. x) result input.new (seen.read input.old) }
{
    let node = read_node(alloc, input)?;
    let children = Listing::of(read_components(alloc, input)?)?;
    Ok(View { node, children })
}

#[tactic(auto, unfolding(crate::specs::Lines::seen))]
fn put_seen(out: &mut Vec<u8>, view: &View) -> Result<(), AllocError>
    ensures { OnOk result (Appends seen view.now out.old.items out.new.items) }
{
    put_node(out, &view.node)?;
    put_components(out, view.children.as_slice())
}

#[tactic(auto, unfolding(crate::specs::Lines::optional_seen))]
fn read_optional_seen(alloc: Global, input: &mut Input) -> Result<Option<View>, WireFault>
    ensures { Reads (λ x. x) result input.new (optional_seen.read input.old) }
{
    if input.choice(&FLAGS)? {
        Ok(Some(read_seen(alloc, input)?))
    } else {
        Ok(None)
    }
}

#[tactic(auto, unfolding(crate::specs::Lines::optional_seen))]
fn put_optional_seen(out: &mut Vec<u8>, view: &Option<View>) -> Result<(), AllocError>
    ensures { OnOk result (Appends optional_seen view.now out.old.items out.new.items) }
{
    match view {
        Some(view) => {
            put_byte(out, 1)?;
            put_seen(out, view)
        }
        None => put_byte(out, 0),
    }
}

#[tactic(auto, unfolding(crate::specs::Lines::answer))]
fn read_answer(alloc: Global, input: &mut Input) -> Result<Answer, WireFault>
    ensures { Reads (λ x. x) result input.new (answer.read input.old) }
{
    let kind = input.choice(&ANSWER_KINDS)?;
    read_answer_of(alloc, input, kind)
}

fn read_answer_of(alloc: Global, input: &mut Input, kind: AnswerKind) -> Result<Answer, WireFault>
    ensures { Reads (λ x. x) result input.new (answer_behind kind input.old) }
{
    Ok(match kind {
        AnswerKind::Opened => Answer::Opened(input.word()?),
        AnswerKind::Closed => Answer::Closed,
        AnswerKind::Poisoned => Answer::Poisoned,
        AnswerKind::Viewed => Answer::Viewed(read_seen(alloc, input)?),
        AnswerKind::Stated => Answer::Stated(read_stat(alloc, input)?),
        AnswerKind::Names => Answer::Names(Listing::of(read_components(alloc, input)?)?),
        AnswerKind::Sequencer => Answer::Sequencer(read_bytes(alloc, input)?),
        AnswerKind::Okay => Answer::Okay,
        AnswerKind::Refused => Answer::Refused(read_fault(input)?),
    })
}

#[tactic(auto, unfolding(crate::specs::Lines::answer))]
fn put_answer(out: &mut Vec<u8>, given: &Answer) -> Result<(), AllocError>
    ensures { OnOk result (Appends answer given.now out.old.items out.new.items) }
{
    match given {
        Answer::Opened(handle) => put_number(out, 0, *handle),
        Answer::Closed => put_byte(out, 1),
        Answer::Poisoned => put_byte(out, 2),
        Answer::Viewed(view) => {
            put_byte(out, 3)?;
            put_seen(out, view)
        }
        Answer::Stated(stat) => {
            put_byte(out, 4)?;
            put_stat(out, stat)
        }
        Answer::Names(names) => {
            put_byte(out, 5)?;
            put_components(out, names.as_slice())
        }
        Answer::Sequencer(bytes) => {
            put_byte(out, 6)?;
            put_block(out, bytes.as_slice())
        }
        Answer::Okay => put_byte(out, 7),
        Answer::Refused(fault) => {
            put_byte(out, 8)?;
            put_fault(out, fault)
        }
    }
}

#[tactic(auto, unfolding(crate::specs::Lines::line))]
pub(crate) fn read_line_body(alloc: Global, input: &mut Input) -> Result<Line, WireFault>
    ensures { Reads (λ x. x) result input.new (line.read input.old) }
{
    let kind = input.choice(&LINE_KINDS)?;
    read_line_of(alloc, input, kind)
}

fn read_line_of(alloc: Global, input: &mut Input, kind: LineKind) -> Result<Line, WireFault>
    ensures { Reads (λ x. x) result input.new (line_behind kind input.old) }
{
    Ok(match kind {
        LineKind::Up => Line::Up(input.word()?),
        LineKind::Down => Line::Down,
        LineKind::Recovered => Line::Recovered,
        LineKind::Started => Line::Started(input.word()?),
        LineKind::Ended => Line::Ended(input.word()?),
        LineKind::Applied => read_applied(alloc, input)?,
        LineKind::Granted => {
            Line::Granted(input.word()?, input.word()?, read_name(alloc, input)?)
        }
        LineKind::Acked => Line::Acked(input.word()?),
        LineKind::Expired => Line::Expired(input.word()?),
        LineKind::Locked => Line::Locked(
            input.word()?,
            input.word()?,
            read_lock_mode(input)?,
            input.word()?,
        ),
        LineKind::Freed => Line::Freed(input.word()?, input.word()?),
        LineKind::Lapsed => Line::Lapsed(input.word()?, input.word()?),
        LineKind::Reopened => Line::Reopened(input.word()?),
        LineKind::Served => read_served(alloc, input)?,
        LineKind::Done => Line::Done(input.word()?, input.word()?, read_answer(alloc, input)?),
        LineKind::Told => Line::Told(input.word()?, read_event(alloc, input)?),
        LineKind::Jeopardy => Line::Jeopardy(input.word()?),
        LineKind::Safe => Line::Safe(input.word()?),
        LineKind::Lost => Line::Lost(input.word()?),
        LineKind::Refused => Line::Refused(read_fault(input)?),
    })
}

fn read_applied(alloc: Global, input: &mut Input) -> Result<Line, WireFault>
    ensures { Reads (λ x. x) result input.new (line_behind LineKind.Applied input.old) }
{
    let client = input.word()?;
    let call = input.word()?;
    let made = read_change(alloc, input)?;
    let children = Listing::of(read_components(alloc, input)?)?;
    Ok(Line::Applied(client, call, made, children))
}

fn read_served(alloc: Global, input: &mut Input) -> Result<Line, WireFault>
    ensures { Reads (λ x. x) result input.new (line_behind LineKind.Served input.old) }
{
    let client = input.word()?;
    let name = read_name(alloc, input)?;
    Ok(Line::Served(client, name, read_optional_seen(alloc, input)?))
}

#[tactic(auto, unfolding(crate::specs::Lines::line))]
pub(crate) fn put_line_body(out: &mut Vec<u8>, printed: &Line) -> Result<(), AllocError>
    ensures { OnOk result (Appends line printed.now out.old.items out.new.items) }
{
    match printed {
        Line::Up(epoch) => put_number(out, 0, *epoch),
        Line::Down => put_byte(out, 1),
        Line::Recovered => put_byte(out, 2),
        Line::Started(client) => put_number(out, 3, *client),
        Line::Ended(client) => put_number(out, 4, *client),
        Line::Applied(client, call, made, children) => put_applied(
            out, *client, *call, made, children,
        ),
        Line::Granted(right, client, name) => put_granted(out, *right, *client, name),
        Line::Acked(right) => put_number(out, 7, *right),
        Line::Expired(right) => put_number(out, 8, *right),
        Line::Locked(client, instance, mode, generation) => put_locked(
            out,
            *client,
            *instance,
            *mode,
            *generation,
        ),
        Line::Freed(client, instance) => put_numbers(out, 10, *client, *instance),
        Line::Lapsed(client, instance) => put_numbers(out, 11, *client, *instance),
        Line::Reopened(instance) => put_number(out, 12, *instance),
        Line::Served(client, name, view) => put_served(out, *client, name, view),
        Line::Done(client, call, given) => put_done(out, *client, *call, given),
        Line::Told(client, event) => put_told(out, *client, event),
        Line::Jeopardy(client) => put_number(out, 16, *client),
        Line::Safe(client) => put_number(out, 17, *client),
        Line::Lost(client) => put_number(out, 18, *client),
        Line::Refused(fault) => {
            put_byte(out, 19)?;
            put_fault(out, fault)
        }
    }
}

// A kind, and a number.
fn put_number(out: &mut Vec<u8>, kind: u8, number: u64) -> Result<(), AllocError>
    ensures { OnOk result (Appends word number (out.old.items ++ kind ∷ []) out.new.items) }
{
    put_byte(out, kind)?;
    put_word(out, number)
}

// A kind, and two numbers.
fn put_numbers(out: &mut Vec<u8>, kind: u8, first: u64, second: u64) -> Result<(), AllocError>
    ensures { OnOk result (Appends two_words (first, second) (out.old.items ++ kind ∷ []) out.new.items) }
{
    put_byte(out, kind)?;
    put_word(out, first)?;
    put_word(out, second)
}

fn put_applied(
    out: &mut Vec<u8>,
    client: u64,
    call: u64,
    made: &Mod,
    children: &Listing,
) -> Result<(), AllocError>
    ensures { OnOk result (Appends applied_fields (client, (call, (made.now, children.now))) (out.old.items ++ 5 ∷ []) out.new.items) }
{
    put_byte(out, 5)?;
    put_word(out, client)?;
    put_word(out, call)?;
    put_change(out, made)?;
    put_components(out, children.as_slice())
}

fn put_granted(out: &mut Vec<u8>, right: u64, client: u64, name: &Name) -> Result<(), AllocError>
    ensures { OnOk result (Appends granted_fields (right, (client, name.now)) (out.old.items ++ 6 ∷ []) out.new.items) }
{
    put_byte(out, 6)?;
    put_word(out, right)?;
    put_word(out, client)?;
    put_name(out, name)
}

fn put_locked(
    out: &mut Vec<u8>,
    client: u64,
    instance: u64,
    mode: LockMode,
    generation: u64,
) -> Result<(), AllocError>
    ensures { OnOk result (Appends locked_fields (client, (instance, (mode, generation))) (out.old.items ++ 9 ∷ []) out.new.items) }
{
    put_byte(out, 9)?;
    put_word(out, client)?;
    put_word(out, instance)?;
    put_lock_mode(out, mode)?;
    put_word(out, generation)
}

fn put_served(
    out: &mut Vec<u8>,
    client: u64,
    name: &Name,
    view: &Option<View>,
) -> Result<(), AllocError>
    ensures { OnOk result (Appends served_fields (client, (name.now, view.now)) (out.old.items ++ 13 ∷ []) out.new.items) }
{
    put_byte(out, 13)?;
    put_word(out, client)?;
    put_name(out, name)?;
    put_optional_seen(out, view)
}

fn put_done(out: &mut Vec<u8>, client: u64, call: u64, given: &Answer) -> Result<(), AllocError>
    ensures { OnOk result (Appends done_fields (client, (call, given.now)) (out.old.items ++ 14 ∷ []) out.new.items) }
{
    put_byte(out, 14)?;
    put_word(out, client)?;
    put_word(out, call)?;
    put_answer(out, given)
}

fn put_told(out: &mut Vec<u8>, client: u64, event: &Event) -> Result<(), AllocError>
    ensures { OnOk result (Appends told_fields (client, event.now) (out.old.items ++ 15 ∷ []) out.new.items) }
{
    put_byte(out, 15)?;
    put_word(out, client)?;
    put_event(out, event)
}
