//! Edits of rows, as words.
use crate::troubles::Trouble;
use collections::{Bytes, Items};
use names_cell::{Component, Name, Principal};
use node_core::{Kind, Life, Node};
use rows_cell::{Edit, LockKey, LockRow, LockState, SessionRow};
use scripts::number;
use std::alloc::Global;
use std::str;

const NO_EDIT: Trouble = Trouble::Said("no edit");

fn number_of(word: &str) -> Result<u64, Trouble> {
    number(word).ok_or(NO_EDIT)
}

fn name_of(alloc: Global, word: &str) -> Result<Name, Trouble> {
    Name::parse(alloc, word).map_err(|_| NO_EDIT)
}

fn base(alloc: Global) -> Result<Component, Trouble> {
    Component::parse(alloc, "base").map_err(|_| NO_EDIT)
}

// A file with this instance and the bytes of a word.
fn file(alloc: Global, instance: u64, word: &str) -> Result<Node, Trouble> {
    Ok(Node {
        kind: Kind::File,
        instance,
        content_generation: 1,
        acl_generation: 1,
        read: base(alloc)?,
        write: base(alloc)?,
        change: base(alloc)?,
        life: Life::Permanent,
        content: Bytes::copy_of(alloc, word.as_bytes())?,
    })
}

fn put(alloc: Global, name: &str, instance: &str, content: &str) -> Result<Edit, Trouble> {
    let instance = number_of(instance)?;
    let name = name_of(alloc, name)?;
    match file(alloc, instance, content) {
        Ok(node) => Ok(Edit::PutNode(name, node)),
        Err(trouble) => {
            drop(name);
            Err(trouble)
        }
    }
}

fn session(alloc: Global, client: &str, principal: &str, state: &str) -> Result<Edit, Trouble> {
    let client = number_of(client)?;
    let live = match state {
        "live" => true,
        "ended" => false,
        _ => return Err(NO_EDIT),
    };
    let principal = Principal::parse(alloc, principal).map_err(|_| NO_EDIT)?;
    Ok(Edit::PutSession(client, SessionRow { principal, live }))
}

fn key_of(words: &[&str]) -> Result<LockKey, Trouble> {
    match words {
        [instance, client, handle] => Ok(LockKey {
            instance: number_of(instance)?,
            client: number_of(client)?,
            handle: number_of(handle)?,
        }),
        _ => Err(NO_EDIT),
    }
}

fn row_of(state: &str, delay: &str) -> Result<LockRow, Trouble> {
    let state = match state {
        "lapsed" => LockState::Lapsed,
        "exclusive" => LockState::Exclusive,
        "shared" => LockState::Shared,
        _ => return Err(NO_EDIT),
    };
    let delay = number_of(delay)?;
    Ok(LockRow { state, delay })
}

fn edit_of(alloc: Global, words: &[&str]) -> Result<Edit, Trouble> {
    match words {
        ["epoch", epoch] => Ok(Edit::Epoch(number_of(epoch)?)),
        ["next", next] => Ok(Edit::NextInstance(number_of(next)?)),
        ["put", name, instance, content] => put(alloc, name, instance, content),
        ["generation", name, generation] => {
            let generation = number_of(generation)?;
            Ok(Edit::LockGeneration(name_of(alloc, name)?, generation))
        }
        ["remove", name] => Ok(Edit::RemoveNode(name_of(alloc, name)?)),
        ["session", client, principal, state] => session(alloc, client, principal, state),
        ["forget", client] => Ok(Edit::RemoveSession(number_of(client)?)),
        ["ended", next] => Ok(Edit::EndedBelow(number_of(next)?)),
        ["lock", key @ .., state, delay] => Ok(Edit::PutLock(key_of(key)?, row_of(state, delay)?)),
        ["unlock", key @ ..] => Ok(Edit::RemoveLock(key_of(key)?)),
        _ => Err(NO_EDIT),
    }
}

fn edit_of_line(alloc: Global, line: &str) -> Result<Edit, Trouble> {
    let words: Vec<&str> = line.split(' ').collect(alloc)?;
    edit_of(alloc, words.as_slice())
}

/// The edits of a text, one a line:
///
///     epoch N | next N | put NAME INSTANCE CONTENT | generation NAME N | remove NAME | session CLIENT PRINCIPAL live|ended
///     | lock INSTANCE CLIENT HANDLE lapsed|exclusive|shared DELAY | unlock INSTANCE CLIENT HANDLE
pub(crate) fn edits_of(alloc: Global, text: &[u8]) -> Result<Items<Edit>, Trouble> {
    let text = str::from_utf8(text).map_err(|_| NO_EDIT)?;
    let mut edits = Items::new(alloc);
    for line in text.split('\n') {
        if !line.is_empty() {
            edits.push(edit_of_line(alloc, line)?)?;
        }
    }
    Ok(edits)
}
