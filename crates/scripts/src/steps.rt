//! The steps of a script, each of them a line.
ghost use Rattle.std.specs.Prelude.{◌≡◌, ◌∷◌, [], codes, IfOk, decimal, None};
ghost use Rattle.std.specs.Str.Lossy.{utf8_lossy};
ghost use Rattle.node_core.specs.Words.{lock_mode_text};
ghost use Rattle.scripts.specs.Steps.{WritesLine, WritesStep, WritesCall, WritesOpen, WritesMaking, WritesOptions, WritesEvents, IsCut, WritesSomeCreate, WritesSomeNode, WritesSomeFile, WritesSomeAcls, IsHex, WritesCreate, WritesLiving, WritesMadeAs, WritesNumber, WritesNodeCall, IsPlainCall, WritesGeneration, IsHandleCall, IsFileContent, IsNumber, WritesTicks, WritesOwn, IsOwn, own_word, commit_word, acl_words, new_acl_words, disposition_word, life_word, texts, step_fault, call_fault, open_fault, create_fault, made_fault, new_acls_fault, acls_fault, node_call_fault};
ghost use Rattle.scripts.specs.Readings.{Reads, IsParsed, flaw_of};

use crate::words::{content, events, mode, number, written};
use client_core::{Ask, NodeCall};
use collections::{Bytes, Items};
use names_cell::{Component, Name, NameFault, Principal};
use node_core::{Fault, Life, LockMode};
use std::alloc::{AllocError, Global};
use std::str;
use tags_cell::{AclNames, ClientNumber, Create, Disposition, Events, NewNode, Open};
use world_steps::{Commit, Step, Ticks};

/// What a line of a script asks for.
#[derive(Drop)]
pub enum Parsed {
    /// Nothing: the line is blank, or a comment.
    Nothing,
    Step(Step),
    /// To deliver and sweep until nothing is left to do.
    Settle,
    /// A step of the right form, but its name isn't a name, or its principal isn't one.
    Refused(Fault),
    /// No step.
    Bad,
}

// Why a line gives no step.
#[derive(Drop)]
enum Flaw {
    Bad,
    Refused(Fault),
    NoMemory,
}

impl From<AllocError> for Flaw {
    ghost use Rattle.scripts.specs.declared.steps.Flaw.TheVariants.{NoMemory};

    ghost from_gives = { λ _ e. e ≡ NoMemory };

    fn from(_e: AllocError) -> Flaw {
        Flaw::NoMemory
    }
}

impl From<NameFault> for Flaw {
    ghost from_gives = { λ x e. e ≡ flaw_of x };

    fn from(fault: NameFault) -> Flaw {
        match fault {
            NameFault::NoMemory => Flaw::NoMemory,
            _ => Flaw::Refused(Fault::from(fault)),
        }
    }
}

/// Reads a line of bytes, without the LF after it. What isn't UTF-8 becomes U+FFFD, which no word has: so such a name
/// or principal isn't one, and any other such word makes the line no step.
pub fn read_line(alloc: Global, line: &[u8]) -> Result<Parsed, AllocError>
    ensures { IfOk result (IsParsed (utf8_lossy line.now)) }
{
    match str::from_utf8(line) {
        Ok(line) => read_step(alloc, line),
        Err(_) => read_step(alloc, String::from_utf8_lossy(alloc, line)?.as_str()),
    }
}

/// Reads a line, without the LF after it. Every word is tested for its form before any is refused.
pub fn read_step(alloc: Global, line: &str) -> Result<Parsed, AllocError>
    ensures { IfOk result (IsParsed line.now) }
{
    if line.is_empty() || line.starts_with('#') {
        return Ok(Parsed::Nothing);
    }
    if line == "settle" {
        return Ok(Parsed::Settle);
    }
    match step_of_line(alloc, line) {
        Ok(step) => Ok(Parsed::Step(step)),
        Err(Flaw::Bad) => Ok(Parsed::Bad),
        Err(Flaw::Refused(fault)) => Ok(Parsed::Refused(fault)),
        Err(Flaw::NoMemory) => Err(AllocError),
    }
}

// The words stand after one another with one space between.
fn step_of_line(alloc: Global, line: &str) -> Result<Step, Flaw>
    ensures { Reads (WritesLine line.now) step_fault result }
{
    let words: Vec<&str> = line.split(' ').collect(alloc)?;
    if words.iter().any(|word| word.is_empty()) {
        return Err(Flaw::Bad);
    }
    match words.as_slice() {
        [word, rest @ ..] => step_of(alloc, word, rest),
        [] => Err(Flaw::Bad),
    }
}

fn step_of(alloc: Global, word: &str, rest: &[&str]) -> Result<Step, Flaw>
    ensures { Reads (WritesStep word.now (texts rest.now)) step_fault result }
{
    match word {
        "up" => Ok(Step::Up(only_number(rest)?)),
        "join" => join(alloc, rest),
        "ask" => asked(alloc, rest),
        "beat" => Ok(Step::Beat(only_number(rest)?)),
        "tick" => Ok(Step::Tick(ticks(alloc, rest)?)),
        "take" => Ok(Step::Take(only_number(rest)?)),
        "give" => Ok(Step::Give(only_number(rest)?)),
        "sweep" if rest.is_empty() => Ok(Step::Sweep),
        "beats" if rest.is_empty() => Ok(Step::Beats),
        "down" if rest.is_empty() => Ok(Step::Down),
        "cut" => cut(rest),
        _ => Err(Flaw::Bad),
    }
}

// A step that a crash cuts.
fn cut(words: &[&str]) -> Result<Step, Flaw>
    ensures { Reads (WritesStep (codes "cut") (texts words.now)) step_fault result }
{
    match words {
        ["sweep", commit] => Ok(Step::CutSweep(commit_of(commit)?)),
        ["up", moment, commit] => {
            let moment = number_of(moment)?;
            Ok(Step::CutUp(moment, commit_of(commit)?))
        }
        _ => Err(Flaw::Bad),
    }
}

// What becomes of its commit.
fn commit_of(word: &str) -> Result<Commit, Flaw>
    ensures { Reads (λ commit. commit_word commit ≡ word.now) (λ _. None) result }
{
    match word {
        "kept" => Ok(Commit::Kept),
        "lost" => Ok(Commit::Lost),
        _ => Err(Flaw::Bad),
    }
}

// One number, and no word more.
fn only_number(words: &[&str]) -> Result<u64, Flaw>
    ensures { Reads (WritesNumber (texts words.now)) (λ _. None) result }
{
    match words {
        [number] => number_of(number),
        _ => Err(Flaw::Bad),
    }
}

fn join(alloc: Global, words: &[&str]) -> Result<Step, Flaw>
    ensures { Reads (WritesStep (codes "join") (texts words.now)) step_fault result }
{
    let [client, principal] = words else {
        return Err(Flaw::Bad);
    };
    let Some(client) = ClientNumber::new(number_of(client)?) else {
        return Err(Flaw::Bad);
    };
    Ok(Step::Join(client, Principal::parse(alloc, principal)?))
}

// The master's step, that of the clients, and the steps of single clients.
fn ticks(alloc: Global, words: &[&str]) -> Result<Ticks, Flaw>
    ensures { Reads (WritesTicks (texts words.now)) (λ _. None) result }
{
    let [master, clients, own @ ..] = words else {
        return Err(Flaw::Bad);
    };
    let master = number_of(master)?;
    let clients = number_of(clients)?;
    let own = own_ticks(alloc, own)?;
    Ok(Ticks {
        master,
        clients,
        own,
    })
}

// Steps of single clients, a word each.
fn own_ticks(alloc: Global, words: &[&str]) -> Result<Items<(u64, u64)>, Flaw>
    ensures { Reads (WritesOwn (texts words.now)) (λ _. None) result }
{
    let mut own = Items::new(alloc);
    for word in words {
        own.push(own_tick(word)?)?;
    }
    Ok(own)
}

// A client's number and its own step.
fn own_tick(word: &str) -> Result<(u64, u64), Flaw>
    ensures { Reads (λ own. (own_word own ≡ word.now) × IsOwn own) (λ _. None) result }
{
    let Some((client, step)) = word.split_once(':') else {
        return Err(Flaw::Bad);
    };
    Ok((number_of(client)?, number_of(step)?))
}

fn asked(alloc: Global, words: &[&str]) -> Result<Step, Flaw>
    ensures { Reads (WritesStep (codes "ask") (texts words.now)) step_fault result }
{
    let [client, word, rest @ ..] = words else {
        return Err(Flaw::Bad);
    };
    let client = number_of(client)?;
    Ok(Step::Ask(client, call_of(alloc, word, rest)?))
}

fn call_of(alloc: Global, word: &str, rest: &[&str]) -> Result<Ask, Flaw>
    ensures { Reads (WritesCall word.now (texts rest.now)) call_fault result }
{
    match word {
        "open" => Ok(Ask::Open(open(alloc, rest)?)),
        "close" => Ok(Ask::Close(only_number(rest)?)),
        "poison" => Ok(Ask::Poison(only_number(rest)?)),
        "setseq" => set_sequencer(alloc, rest),
        "checkseq" => check_sequencer(alloc, rest),
        "leave" => leave(rest),
        _ => handle_call(alloc, word, rest),
    }
}

fn open(alloc: Global, words: &[&str]) -> Result<Open, Flaw>
    ensures { Reads (WritesOpen (texts words.now)) open_fault result }
{
    let [name, letters, rest @ ..] = words else {
        return Err(Flaw::Bad);
    };
    let Some(mode) = mode(letters) else {
        return Err(Flaw::Bad);
    };
    let (create, delay, events) = making_of(alloc, rest)?;
    let name = Name::parse(alloc, name)?;
    Ok(Open {
        name,
        mode,
        create,
        delay,
        events,
    })
}

// What an Open makes, and the lock-delay and the events of its handle.
fn making_of(alloc: Global, words: &[&str]) -> Result<(Option<Create>, u64, Events), Flaw>
    ensures { Reads (λ making. WritesMaking (texts words.now) making.0 making.1 making.2) (λ making. create_fault making.0) result }
{
    let cut = create_length(words);
    let (delay, events) = options_of(&words[cut..])?;
    let create = create_of(alloc, &words[..cut])?;
    Ok((create, delay, events))
}

// How many words say what an Open makes: a disposition, and a node.
fn create_length(words: &[&str]) -> usize
    ensures { IsCut WritesSomeCreate (texts words.now) result }
{
    let [first, rest @ ..] = words else {
        return 0;
    };
    match *first {
        "delay" | "events" => 0,
        _ => 1 + node_length(rest),
    }
}

// How many say a node: its kind and life, a file's content, and ACL names.
fn node_length(words: &[&str]) -> usize
    ensures { IsCut WritesSomeNode (texts words.now) result }
{
    let [kind, _, rest @ ..] = words else {
        return words.len();
    };
    if *kind == "file" {
        return 2 + file_length(rest);
    }
    2 + acls_length(rest)
}

// How many are a content and ACL names.
fn file_length(words: &[&str]) -> usize
    ensures { IsCut WritesSomeFile (texts words.now) result }
{
    let [_, rest @ ..] = words else {
        return 0;
    };
    1 + acls_length(rest)
}

// How many are ACL names, with the word before them.
fn acls_length(words: &[&str]) -> usize
    ensures { IsCut WritesSomeAcls (texts words.now) result }
{
    let [first, _, _, _, ..] = words else {
        return 0;
    };
    if *first == "acl" { 4 } else { 0 }
}

// A lock-delay, and events after it. Without its word the delay is 0.
fn options_of(words: &[&str]) -> Result<(u64, Events), Flaw>
    ensures { Reads (λ options. WritesOptions (texts words.now) options.0 options.1) (λ _. None) result }
{
    let [first, delay, rest @ ..] = words else {
        return Ok((0, events_of(words)?));
    };
    if *first != "delay" {
        return Ok((0, events_of(words)?));
    }
    let delay = number_of(delay)?;
    Ok((delay, events_of(rest)?))
}

// The events that a client asks for. Without words there are none.
fn events_of(words: &[&str]) -> Result<Events, Flaw>
    ensures { Reads (WritesEvents (texts words.now)) (λ _. None) result }
{
    match words {
        [] => Ok(Events::none()),
        ["events", letters] => events(letters).ok_or(Flaw::Bad),
        _ => Err(Flaw::Bad),
    }
}

// What an Open makes: a disposition, a node with its life, and its ACL names. Without words it makes nothing.
fn create_of(alloc: Global, words: &[&str]) -> Result<Option<Create>, Flaw>
    ensures { Reads (WritesCreate (texts words.now)) create_fault result }
{
    match words {
        [] => Ok(None),
        [word, rest @ ..] => Ok(Some(living_of(alloc, word, rest)?)),
    }
}

fn living_of(alloc: Global, word: &str, words: &[&str]) -> Result<Create, Flaw>
    ensures { Reads (WritesLiving word.now (texts words.now)) made_fault result }
{
    let [kind, life, rest @ ..] = words else {
        return Err(Flaw::Bad);
    };
    let life = life_of(life)?;
    made_of(alloc, word, kind, life, rest)
}

fn made_of(alloc: Global, word: &str, kind: &str, life: Life, rest: &[&str]) -> Result<Create, Flaw>
    ensures { Reads (WritesMadeAs life word.now kind.now (texts rest.now)) made_fault result }
{
    let disposition = disposition_of(word)?;
    match kind {
        "file" => file_of(alloc, disposition, life, rest),
        "dir" => Ok(Create {
            disposition,
            node: NewNode::Directory,
            life,
            acls: new_acls(alloc, rest)?,
        }),
        _ => Err(Flaw::Bad),
    }
}

// A file of a content.
fn file_of(
    alloc: Global,
    disposition: Disposition,
    life: Life,
    words: &[&str],
) -> Result<Create, Flaw>
    ensures { Reads (WritesMadeAs life (disposition_word disposition) (codes "file") (texts words.now)) made_fault result }
{
    let [content, acls @ ..] = words else {
        return Err(Flaw::Bad);
    };
    let content = content_of(alloc, content)?;
    Ok(Create {
        disposition,
        node: NewNode::File(content),
        life,
        acls: new_acls(alloc, acls)?,
    })
}

fn disposition_of(word: &str) -> Result<Disposition, Flaw>
    ensures { Reads (λ disposition. disposition_word disposition ≡ word.now) (λ _. None) result }
{
    match word {
        "may" => Ok(Disposition::May),
        "must" => Ok(Disposition::Must),
        _ => Err(Flaw::Bad),
    }
}

fn life_of(word: &str) -> Result<Life, Flaw>
    ensures { Reads (λ life. life_word life ≡ word.now) (λ _. None) result }
{
    match word {
        "permanent" => Ok(Life::Permanent),
        "ephemeral" => Ok(Life::Ephemeral),
        _ => Err(Flaw::Bad),
    }
}

// The ACL names of a new node. Without words it takes those of its parent.
fn new_acls(alloc: Global, words: &[&str]) -> Result<Option<AclNames>, Flaw>
    ensures { Reads (λ acls. new_acl_words acls ≡ texts words.now) new_acls_fault result }
{
    match words {
        [] => Ok(None),
        ["acl", read, write, change] => Ok(Some(acl_names(alloc, read, write, change)?)),
        _ => Err(Flaw::Bad),
    }
}

fn acl_names(alloc: Global, read: &str, write: &str, change: &str) -> Result<AclNames, Flaw>
    ensures { Reads (λ acls. acl_words acls ≡ read.now ∷ (write.now ∷ (change.now ∷ []))) acls_fault result }
{
    Ok(AclNames {
        read: Component::parse(alloc, read)?,
        write: Component::parse(alloc, write)?,
        change: Component::parse(alloc, change)?,
    })
}

// A call on the node of a handle.
fn handle_call(alloc: Global, word: &str, words: &[&str]) -> Result<Ask, Flaw>
    ensures { Reads (IsHandleCall word.now (texts words.now)) call_fault result }
{
    let [handle, rest @ ..] = words else {
        return Err(Flaw::Bad);
    };
    let handle = number_of(handle)?;
    Ok(Ask::Node(handle, node_call(alloc, word, rest)?))
}

// A call on a node, and the words after the handle.
fn node_call(alloc: Global, call: &str, words: &[&str]) -> Result<NodeCall, Flaw>
    ensures { Reads (WritesNodeCall call.now (texts words.now)) node_call_fault result }
{
    match call {
        "acquire" => Ok(NodeCall::Acquire(only_mode(words)?)),
        "try" => Ok(NodeCall::TryAcquire(only_mode(words)?)),
        _ => plain_call(alloc, call, words),
    }
}

// One that doesn't ask for a lock.
fn plain_call(alloc: Global, call: &str, words: &[&str]) -> Result<NodeCall, Flaw>
    ensures { Reads (IsPlainCall call.now (texts words.now)) node_call_fault result }
{
    match (call, words) {
        ("read", []) => Ok(NodeCall::Read),
        ("stat", []) => Ok(NodeCall::Stat),
        ("list", []) => Ok(NodeCall::List),
        ("delete", []) => Ok(NodeCall::Delete),
        ("release", []) => Ok(NodeCall::Release),
        ("getseq", []) => Ok(NodeCall::GetSequencer),
        ("set", [content, generation @ ..]) => {
            let generation = generation_of(generation)?;
            Ok(NodeCall::Set(content_of(alloc, content)?, generation))
        }
        ("acl", [read, write, change, generation @ ..]) => {
            let generation = generation_of(generation)?;
            let acls = acl_names(alloc, read, write, change)?;
            Ok(NodeCall::SetAcl(acls, generation))
        }
        _ => Err(Flaw::Bad),
    }
}

// One mode of a lock, and no word more.
fn only_mode(words: &[&str]) -> Result<LockMode, Flaw>
    ensures { Reads (λ mode. texts words.now ≡ lock_mode_text mode ∷ []) (λ _. None) result }
{
    match words {
        [mode] => lock_mode_of(mode),
        _ => Err(Flaw::Bad),
    }
}

// How a lock is to be held: alone, or beside others.
fn lock_mode_of(word: &str) -> Result<LockMode, Flaw>
    ensures { Reads (λ mode. lock_mode_text mode ≡ word.now) (λ _. None) result }
{
    match word {
        "x" => Ok(LockMode::Exclusive),
        "s" => Ok(LockMode::Shared),
        _ => Err(Flaw::Bad),
    }
}

// A handle, and the sequencer that its calls are to stand under.
fn set_sequencer(alloc: Global, words: &[&str]) -> Result<Ask, Flaw>
    ensures { Reads (WritesCall (codes "setseq") (texts words.now)) call_fault result }
{
    let [handle, sequencer] = words else {
        return Err(Flaw::Bad);
    };
    let handle = number_of(handle)?;
    let sequencer = hex_of(alloc, sequencer)?;
    Ok(Ask::SetSequencer(handle, sequencer))
}

// A sequencer that is asked about.
fn check_sequencer(alloc: Global, words: &[&str]) -> Result<Ask, Flaw>
    ensures { Reads (WritesCall (codes "checkseq") (texts words.now)) call_fault result }
{
    let [sequencer] = words else {
        return Err(Flaw::Bad);
    };
    let sequencer = hex_of(alloc, sequencer)?;
    Ok(Ask::CheckSequencer(sequencer))
}

// The end of a session.
fn leave(words: &[&str]) -> Result<Ask, Flaw>
    ensures { Reads (WritesCall (codes "leave") (texts words.now)) call_fault result }
{
    match words {
        [] => Ok(Ask::Leave),
        _ => Err(Flaw::Bad),
    }
}

// The generation that has to be present, where one is given.
fn generation_of(words: &[&str]) -> Result<Option<u64>, Flaw>
    ensures { Reads (WritesGeneration (texts words.now)) (λ _. None) result }
{
    match words {
        [] => Ok(None),
        [generation] => Ok(Some(number_of(generation)?)),
        _ => Err(Flaw::Bad),
    }
}

fn content_of(alloc: Global, word: &str) -> Result<Bytes, Flaw>
    ensures { Reads (IsFileContent word.now) (λ _. None) result }
{
    match content(alloc, word)? {
        Some(content) => Ok(content),
        None => Err(Flaw::Bad),
    }
}

// Bytes, at least one.
fn hex_of(alloc: Global, word: &str) -> Result<Bytes, Flaw>
    ensures { Reads (IsHex word.now) (λ _. None) result }
{
    match written(alloc, word)? {
        Some(bytes) => Ok(bytes),
        None => Err(Flaw::Bad),
    }
}

fn number_of(word: &str) -> Result<u64, Flaw>
    ensures { Reads (λ n. (decimal n ≡ word.now) × IsNumber n) (λ _. None) result }
{
    number(word).ok_or(Flaw::Bad)
}
