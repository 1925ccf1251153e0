//! Messages in words: each field behind its name, bytes in hexadecimal.
use collections::Bytes;
use node_core::LockMode;
use std::alloc::AllocError;
use tags_cell::{
    AclNames, Alive, Beat, Call, CallMessage, CallResult, Create, Disposition, HandleBytes,
    NewNode, Open, Out, Reply, Request,
};

/// Behind a word; a dash for none.
fn put_bytes(text: &mut String, word: &str, bytes: &[u8]) -> Result<(), AllocError> {
    write!(text, " {word} ")?;
    if bytes.is_empty() {
        text.push_str("-")?;
    }
    for byte in bytes {
        write!(text, "{byte:02x}")?;
    }
    Ok(())
}

fn put_some_bytes(text: &mut String, word: &str, bytes: &Option<Bytes>) -> Result<(), AllocError> {
    match bytes {
        Some(bytes) => put_bytes(text, word, bytes.as_slice()),
        None => write!(text, " {word} none"),
    }
}

fn put_some(text: &mut String, word: &str, number: Option<u64>) -> Result<(), AllocError> {
    match number {
        Some(number) => write!(text, " {word} {number}"),
        None => write!(text, " {word} none"),
    }
}

fn put_acls(text: &mut String, acls: &AclNames) -> Result<(), AllocError> {
    let AclNames {
        read,
        write,
        change,
    } = acls;
    write!(text, " acls {read} {write} {change}")
}

fn put_node(text: &mut String, node: &NewNode) -> Result<(), AllocError> {
    match node {
        NewNode::File(content) => put_bytes(text, "file", content.as_slice()),
        NewNode::Directory => text.push_str(" directory"),
    }
}

fn put_create(text: &mut String, create: &Create) -> Result<(), AllocError> {
    text.push_str(match create.disposition {
        Disposition::May => " create may",
        Disposition::Must => " create must",
    })?;
    put_node(text, &create.node)?;
    let life = create.life;
    write!(text, " {life}")?;
    match &create.acls {
        Some(acls) => put_acls(text, acls),
        None => text.push_str(" acls none"),
    }
}

fn put_open(text: &mut String, open: &Open) -> Result<(), AllocError> {
    let name = &open.name;
    let mode = open.mode.bits();
    write!(text, " Open {name} mode {mode}")?;
    match &open.create {
        Some(create) => put_create(text, create)?,
        None => text.push_str(" create none")?,
    }
    let delay = open.delay;
    let events = open.events.bits();
    write!(text, " lock-delay {delay} events {events}")
}

// Of a call that has nothing but a handle, its name and that.
fn handle_alone(call: &Call) -> Option<(&'static str, &HandleBytes)> {
    match call {
        Call::Close(handle) => Some(("Close", handle)),
        Call::Read(handle) => Some(("Read", handle)),
        Call::Stat(handle) => Some(("Stat", handle)),
        Call::List(handle) => Some(("List", handle)),
        Call::Delete(handle) => Some(("Delete", handle)),
        Call::Release(handle) => Some(("Release", handle)),
        Call::GetSequencer(handle) => Some(("GetSequencer", handle)),
        Call::SetSequencer(handle) => Some(("SetSequencer", handle)),
        _ => None,
    }
}

fn put_lock(
    text: &mut String,
    word: &str,
    handle: &HandleBytes,
    mode: LockMode,
) -> Result<(), AllocError> {
    put_bytes(text, word, handle.as_slice())?;
    write!(text, " {mode}")
}

fn put_set(
    text: &mut String,
    handle: &HandleBytes,
    content: &Bytes,
    generation: Option<u64>,
) -> Result<(), AllocError> {
    put_bytes(text, "Set", handle.as_slice())?;
    put_bytes(text, "content", content.as_slice())?;
    put_some(text, "generation", generation)
}

fn put_set_acl(
    text: &mut String,
    handle: &HandleBytes,
    acls: &AclNames,
    generation: Option<u64>,
) -> Result<(), AllocError> {
    put_bytes(text, "SetAcl", handle.as_slice())?;
    put_acls(text, acls)?;
    put_some(text, "generation", generation)
}

fn put_call(text: &mut String, call: &Call) -> Result<(), AllocError> {
    if let Some((word, handle)) = handle_alone(call) {
        return put_bytes(text, word, handle.as_slice());
    }
    match call {
        Call::Open(open) => put_open(text, open),
        Call::Set {
            handle,
            content,
            generation,
        } => put_set(text, handle, content, *generation),
        Call::SetAcl {
            handle,
            acls,
            generation,
        } => put_set_acl(text, handle, acls, *generation),
        Call::Acquire { handle, mode } => put_lock(text, "Acquire", handle, *mode),
        Call::TryAcquire { handle, mode } => put_lock(text, "TryAcquire", handle, *mode),
        Call::CheckSequencer(bytes) => put_bytes(text, "CheckSequencer", bytes.as_slice()),
        Call::Leave => text.push_str(" Leave"),
        _ => Ok(()),
    }
}

fn put_message(text: &mut String, message: &CallMessage) -> Result<(), AllocError> {
    let epoch = message.epoch;
    let number = message.number.get();
    write!(text, " epoch {epoch} number {number}")?;
    put_call(text, &message.call)?;
    put_some_bytes(text, "sequencer", &message.sequencer)
}

fn put_beat(text: &mut String, beat: &Beat) -> Result<(), AllocError> {
    let epoch = beat.epoch;
    let number = beat.number.get();
    let invalidations = beat.invalidations;
    let events = beat.events;
    write!(
        text,
        " epoch {epoch} number {number} invalidations {invalidations} events {events}"
    )
}

/// Writes what a client sends.
pub(crate) fn put_request(text: &mut String, request: &Request) -> Result<(), AllocError> {
    let client = request.client().get();
    match request {
        Request::Start(start) => {
            let number = start.number.get();
            let principal = &start.principal;
            write!(
                text,
                "Start client {client} number {number} principal {principal}"
            )
        }
        Request::Beat(beat) => {
            write!(text, "Beat client {client}")?;
            put_beat(text, beat)
        }
        Request::Call(message) => {
            write!(text, "Call client {client}")?;
            put_message(text, message)
        }
    }
}

fn put_alive(text: &mut String, alive: &Alive) -> Result<(), AllocError> {
    let span = alive.span;
    write!(text, " span {span} invalidations")?;
    for invalidation in alive.invalidations.as_slice() {
        let number = invalidation.number;
        let name = &invalidation.name;
        write!(text, " {number} {name}")?;
    }
    text.push_str(" events")?;
    for told in alive.events.as_slice() {
        let number = told.number;
        let event = &told.event;
        write!(text, " {number} {event}")?;
    }
    Ok(())
}

fn put_result(text: &mut String, given: &CallResult) -> Result<(), AllocError> {
    match given {
        CallResult::Opened(handle) => {
            let instance = handle.instance.get();
            let life = handle.life;
            put_bytes(text, "opened", handle.bytes.as_slice())?;
            write!(text, " instance {instance} {life}")
        }
        CallResult::Closed => text.push_str(" closed"),
        CallResult::Viewed(view) => write!(text, " view {view}"),
        CallResult::Stated(stat) => write!(text, " stat {stat}"),
        CallResult::Listed(view) => write!(text, " listing {view}"),
        CallResult::Sequencer(bytes) => put_bytes(text, "sequencer", bytes.as_slice()),
        CallResult::Done => text.push_str(" done"),
        CallResult::Refused(fault) => write!(text, " refused {fault}"),
    }
}

fn put_reply(text: &mut String, reply: &Reply) -> Result<(), AllocError> {
    put_some(text, "stamp", reply.stamp)?;
    put_result(text, &reply.result)
}

// Of what a master sends: its kind, epoch and number.
fn head_of(out: &Out) -> (&'static str, u64, u64) {
    match out {
        Out::Started(started) => ("Started", started.epoch, started.number.get()),
        Out::Alive(alive) => ("Alive", alive.epoch, alive.number.get()),
        Out::Reply(reply) => ("Reply", reply.epoch, reply.number.get()),
        Out::Refused(refused) => ("Refused", refused.epoch, refused.number.get()),
    }
}

/// Writes what a master sends.
pub(crate) fn put_out(text: &mut String, out: &Out) -> Result<(), AllocError> {
    let client = out.client().get();
    let (kind, epoch, number) = head_of(out);
    write!(text, "{kind} client {client} epoch {epoch} number {number}")?;
    match out {
        Out::Started(started) => {
            let span = started.span;
            write!(text, " span {span}")
        }
        Out::Alive(alive) => put_alive(text, alive),
        Out::Reply(reply) => put_reply(text, reply),
        Out::Refused(refused) => {
            let fault = refused.fault;
            write!(text, " {fault}")
        }
    }
}
