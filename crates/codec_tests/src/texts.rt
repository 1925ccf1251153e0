//! Texts, and what they are read as.
use crate::reports::Report;
use crate::stops::Stop;
use crate::tables::Part;
use collections::Bytes;
use names_cell::{AclList, Component, Name, NameFault, Principal};
use node_core::Fault;
use rows_cell::{Limits, Settings};
use scripts::{Parsed, content, events, mode, number, read_settings, read_step};
use std::alloc::{AllocError, Global};

// What a line of a script is read as.
fn kind_of(parsed: &Parsed) -> &'static str {
    match parsed {
        Parsed::Nothing => "nothing",
        Parsed::Step(_) => "step",
        Parsed::Settle => "settle",
        Parsed::Refused(fault) => fault.name(),
        Parsed::Bad => "bad",
    }
}

fn put_step(alloc: Global, text: &mut String, line: &str) -> Result<(), AllocError> {
    let parsed = read_step(alloc, line)?;
    let kind = kind_of(&parsed);
    drop(parsed);
    text.push_str(kind)
}

fn put_number(text: &mut String, number: Option<u64>) -> Result<(), AllocError> {
    match number {
        Some(number) => write!(text, "{number}"),
        None => text.push_str("none"),
    }
}

/// Bytes in hexadecimal; a dash for none.
fn put_hex(text: &mut String, bytes: &[u8]) -> Result<(), AllocError> {
    if bytes.is_empty() {
        text.push_str("-")?;
    }
    for byte in bytes {
        write!(text, "{byte:02x}")?;
    }
    Ok(())
}

// How many bytes it has, and the first three of them.
fn put_content(text: &mut String, content: Option<Bytes>) -> Result<(), AllocError> {
    let Some(content) = content else {
        return text.push_str("none");
    };
    let bytes = content.as_slice();
    let length = bytes.len();
    write!(text, "{length} ")?;
    put_hex(text, bytes.get(..3).unwrap_or(bytes))
}

// Why it isn't one, where there is a reason.
fn put_refusal(text: &mut String, refusal: Option<NameFault>) -> Result<(), AllocError> {
    match refusal {
        Some(fault) => text.push_str(Fault::from(fault).name()),
        None => text.push_str("one"),
    }
}

// Cell, lease, the principals' lines and the secret in hexadecimal, and the limits that there are.
fn put_settings(text: &mut String, settings: &Settings) -> Result<(), AllocError> {
    let cell = settings.cell();
    let lease = settings.lease();
    write!(text, "{cell} {lease} ")?;
    put_hex(text, settings.base().as_slice())?;
    text.push_str(" ")?;
    put_hex(text, settings.secret().as_bytes())?;
    put_limits(text, settings.terms().limits)
}

// Those that there are, each with its word.
fn put_limits(text: &mut String, limits: Limits) -> Result<(), AllocError> {
    put_limit(text, "max_nodes", limits.max_nodes)?;
    put_limit(text, "max_bytes", limits.max_bytes)?;
    put_limit(text, "max_locks", limits.max_locks)
}

fn put_limit(text: &mut String, word: &str, limit: Option<u64>) -> Result<(), AllocError> {
    match limit {
        Some(limit) => write!(text, " {word} {limit}"),
        None => Ok(()),
    }
}

// Of a refusal only whether it has the wanted word.
fn put_said(alloc: Global, text: &mut String, said: &str, wanted: &str) -> Result<(), AllocError> {
    match read_settings(alloc, said) {
        Ok(settings) => put_settings(text, &settings),
        Err(fault) => {
            write!(text, "{fault}")?;
            if text.contains(wanted) {
                text.clear();
                text.push_str(wanted)?;
            }
            Ok(())
        }
    }
}

// What a text is read as, by its kind.
fn put_read(
    alloc: Global,
    text: &mut String,
    (kind, wanted): (&str, &str),
    said: &str,
) -> Result<(), AllocError> {
    match kind {
        "steps" => put_step(alloc, text, said),
        "numbers" => put_number(text, number(said)),
        "modes" => put_number(text, mode(said).map(|mode| u64::from(mode.bits()))),
        "events" => put_number(text, events(said).map(|events| u64::from(events.bits()))),
        "contents" => put_content(text, content(alloc, said)?),
        "names" => put_refusal(text, Name::parse(alloc, said).err()),
        "components" => put_refusal(text, Component::parse(alloc, said).err()),
        "principals" => put_refusal(text, Principal::parse(alloc, said).err()),
        "acls" => put_refusal(text, AclList::read(said.as_bytes()).err()),
        _ => put_said(alloc, text, said, wanted),
    }
}

/// Runs a table of texts. A row's text stands in its lines `text`, one behind the other with a line feed between, or in hexadecimal behind
/// `bytes`; else it is its name.
pub(crate) fn run_texts(
    rt: &HostRuntime,
    report: &mut Report,
    table: Part<'_, '_>,
) -> Result<(), Stop> {
    let alloc = rt.alloc();
    let kind = table.value("of");
    for row in &table.parts(alloc, "row")? {
        let said = row.text(alloc)?;
        let wanted = row.value("is");
        let mut came = String::new(alloc);
        put_read(alloc, &mut came, (kind, wanted), said.as_str())?;
        report.tell(rt, (table.name, row.name), wanted, came.as_str());
    }
    Ok(())
}
