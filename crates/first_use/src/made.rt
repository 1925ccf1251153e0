//! A master, a client, and what it opens.
use anyhow::{Result, bail};
use client_core::{Ask, Client};
use collections::Bytes;
use names_cell::{Name, Principal};
use node_core::{Fault, Life};
use over_core::Cell;
use rows_cell::{Limits, ListRecords, MasterTerms, Settings};
use std::alloc::{AllocError, Global};
use tags_cell::{ClientNumber, Create, Disposition, Events, Mode, NewNode, Open};

/// A master over rows in lists.
pub(crate) type ListMaster = Cell<ListRecords>;

/// The first master of a new cell, at the moment 0, with a lease of twelve seconds.
pub(crate) fn new_master(alloc: Global) -> Result<ListMaster> {
    let records = new_records(alloc)?;
    let terms = MasterTerms {
        lease: 12_000,
        limits: Limits::none(),
    };
    match Cell::up(alloc, records, terms, 0) {
        Ok(cell) => Ok(cell),
        Err((fault, records)) => {
            drop(records);
            Err(fault.into())
        }
    }
}

fn new_records(alloc: Global) -> Result<ListRecords> {
    let settings = Settings::standard(alloc)?;
    let records = ListRecords::new(alloc, &settings);
    drop(settings);
    Ok(records?)
}

/// Client 1, which speaks for ann.
pub(crate) fn new_client(alloc: Global) -> Result<Client> {
    let Some(number) = ClientNumber::new(1) else {
        bail!("no client's number");
    };
    let principal = Principal::parse(alloc, "ann")?;
    Ok(Client::new(alloc, number, principal))
}

/// Opens /ls/c/f to read it, and makes it where it isn't there.
pub(crate) fn opening(alloc: Global) -> Result<Ask> {
    let Some(mode) = Mode::new(true, false, false) else {
        bail!("no mode");
    };
    Ok(Ask::Open(opening_by(alloc, mode)?))
}

fn opening_by(alloc: Global, mode: Mode) -> Result<Open, Fault> {
    let name = Name::parse(alloc, "/ls/c/f")?;
    Ok(Open {
        name,
        mode,
        create: Some(new_file(alloc)?),
        delay: 0,
        events: Events::none(),
    })
}

fn new_file(alloc: Global) -> Result<Create, AllocError> {
    let node = NewNode::File(Bytes::copy_of(alloc, b"hello")?);
    Ok(Create {
        disposition: Disposition::May,
        node,
        life: Life::Permanent,
        acls: None,
    })
}
