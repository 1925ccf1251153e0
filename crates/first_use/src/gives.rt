//! What a master sends is given to its client.
use client_core::Client;
use node_core::Fault;
use over_core::{Swept, Taken};
use tags_cell::Out;

pub(crate) fn give_taken(client: &mut Client, taken: Taken) -> Result<(), Fault> {
    let given = give(client, taken.outs.as_slice());
    drop(taken);
    given
}

pub(crate) fn give_swept(client: &mut Client, swept: Swept) -> Result<(), Fault> {
    let given = give(client, swept.outs.as_slice());
    drop(swept);
    given
}

fn give(client: &mut Client, outs: &[Out]) -> Result<(), Fault> {
    for out in outs {
        drop(client.give(0, out)?);
    }
    Ok(())
}
