//! A master and a client in one process: a file is made and read, and read again out of the client's cache.
#![tactic(auto)]

mod gives;
mod made;

use anyhow::Result;
use client_core::{Ask, Client, NodeCall, Outcome};
use gives::{give_swept, give_taken};
use made::{ListMaster, new_client, new_master, opening};
use node_core::Fault;
use std::alloc::Global;
use tags_cell::Request;

fn main(rt: HostRuntime) -> Result<()> {
    let mut cell = new_master(rt.alloc())?;
    let answers = visit(rt.alloc(), &mut cell);
    drop(cell);
    let (opened, read, again) = answers?;
    println!(rt; "{opened}\n{read}\n{again}")?;
    Ok(())
}

// Who answers an Open, a read, and another read.
type Answerers = (&'static str, &'static str, &'static str);

// A client comes to a master, and goes.
fn visit(alloc: Global, cell: &mut ListMaster) -> Result<Answerers> {
    let mut client = new_client(alloc)?;
    let answers = read_twice(alloc, cell, &mut client);
    drop(client);
    answers
}

fn read_twice(alloc: Global, cell: &mut ListMaster, client: &mut Client) -> Result<Answerers> {
    begin(cell, client)?;
    let opened = open(alloc, cell, client)?;
    let first = read(cell, client)?;
    let again = read(cell, client)?;
    Ok((opened, first, again))
}

// The client gets its session.
fn begin(cell: &mut ListMaster, client: &mut Client) -> Result<(), Fault> {
    let beaten = client.beat(0)?;
    let begun = start(cell, client, &beaten.request);
    drop(beaten);
    begun
}

fn start(cell: &mut ListMaster, client: &mut Client, start: &Option<Request>) -> Result<(), Fault> {
    if let Some(start) = start {
        carry(cell, client, start)?;
    }
    Ok(())
}

fn open(alloc: Global, cell: &mut ListMaster, client: &mut Client) -> Result<&'static str> {
    let opening = opening(alloc)?;
    let answer = ask(cell, client, &opening);
    drop(opening);
    Ok(answer?)
}

fn read(cell: &mut ListMaster, client: &mut Client) -> Result<&'static str, Fault> {
    let read = Ask::Node(1, NodeCall::Read);
    let answer = ask(cell, client, &read);
    drop(read);
    answer
}

fn ask(cell: &mut ListMaster, client: &mut Client, ask: &Ask) -> Result<&'static str, Fault> {
    let asked = client.ask(0, ask)?;
    let who = answer(cell, client, &asked.outcome);
    drop(asked);
    who
}

fn answer(cell: &mut ListMaster, client: &mut Client, by: &Outcome) -> Result<&'static str, Fault> {
    match by {
        Outcome::Sent(request) => carry(cell, client, request),
        Outcome::Served(_) => Ok("the cache serves"),
        Outcome::Answered => Ok("the client answers"),
        Outcome::Refused(fault) => Ok(fault.name()),
    }
}

fn carry(
    cell: &mut ListMaster,
    client: &mut Client,
    request: &Request,
) -> Result<&'static str, Fault> {
    give_taken(client, cell.take(0, request)?)?;
    give_swept(client, cell.sweep(0)?)?;
    Ok("the master answers")
}
