//! The calls that name ACLs, by their parts.
ghost use Rattle.std.specs.Prelude.{◌≡◌};
ghost use Rattle.collections.specs.Results.{Gives};
ghost use Rattle.client_exports.specs.Steps.{Makes, Stays};
ghost use Rattle.client_exports.specs.Parts.{component_in, acls_in, made_under, opening_under, under, open_under_ask, set_acl_ask, ask_parts};

use crate::calls::{OpenParts, generation_in, open_ask};
use crate::held::HeldClient;
use crate::statuses::Status;
use client_core::{Ask, NodeCall};
use codec::WireFault;
use names_cell::Component;
use std::alloc::Global;
use std::str;
use tags_cell::{AclNames, Create, Open};

impl HeldClient {
    /// Opens the node of this name as `open_node`; where it is made, under these ACL names: to read, to write, and to change the
    /// ACL names.
    pub fn open_under(
        &mut self,
        now: u64,
        name: &[u8],
        opening: &OpenParts,
        content: &[u8],
        read: &[u8],
        write: &[u8],
        change: &[u8],
    ) -> Status
        ensures step { Makes self.old self.new result (ask_parts self.old now (open_under_ask name.now opening.now content.now (acls_in read.now write.now change.now))) }
        ensures kept { Stays self.old self.new result }
    {
        match open_under_ask(self.alloc, name, opening, content, read, write, change) {
            Ok(ask) => self.call(now, ask),
            Err(fault) => Status::Bad(fault),
        }
    }

    /// Names the ACLs of a handle's node; where the generation isn't 0, only where that is the present one of the ACL names.
    pub fn set_acl(
        &mut self,
        now: u64,
        handle: u64,
        read: &[u8],
        write: &[u8],
        change: &[u8],
        generation: u64,
    ) -> Status
        ensures step { Makes self.old self.new result (ask_parts self.old now (set_acl_ask handle (acls_in read.now write.now change.now) generation)) }
        ensures kept { Stays self.old self.new result }
    {
        match acls_in(self.alloc, read, write, change) {
            Ok(acls) => self.call_on(
                now,
                handle,
                NodeCall::SetAcl(acls, generation_in(generation)),
            ),
            Err(fault) => Status::Bad(fault),
        }
    }
}

fn acls_in(alloc: Global, read: &[u8], write: &[u8], change: &[u8]) -> Result<AclNames, WireFault>
    ensures { Gives WireFault.NoMemory result (acls_in read.now write.now change.now) }
{
    let read = component_in(alloc, read)?;
    let write = component_in(alloc, write)?;
    let change = component_in(alloc, change)?;
    Ok(AclNames {
        read,
        write,
        change,
    })
}

fn component_in(alloc: Global, text: &[u8]) -> Result<Component, WireFault>
    ensures { Gives WireFault.NoMemory result (component_in text.now) }
{
    let Ok(text) = str::from_utf8(text) else {
        return Err(WireFault::BadText);
    };
    Ok(Component::parse(alloc, text)?)
}

fn open_under_ask(
    alloc: Global,
    name: &[u8],
    opening: &OpenParts,
    content: &[u8],
    read: &[u8],
    write: &[u8],
    change: &[u8],
) -> Result<Ask, WireFault>
    ensures { Gives WireFault.NoMemory result (open_under_ask name.now opening.now content.now (acls_in read.now write.now change.now)) }
{
    let ask = open_ask(alloc, name, opening, content)?;
    match acls_in(alloc, read, write, change) {
        Ok(acls) => Ok(under(acls, ask)),
        Err(fault) => {
            drop(ask);
            Err(fault)
        }
    }
}

fn under(acls: AclNames, ask: Ask) -> Ask
    ensures { result ≡ under acls ask }
{
    match ask {
        Ask::Open(opening) => Ask::Open(opening_under(acls, opening)),
        ask => {
            drop(acls);
            ask
        }
    }
}

fn opening_under(acls: AclNames, opening: Open) -> Open
    ensures { result ≡ opening_under acls opening }
{
    let Open {
        name,
        mode,
        create,
        delay,
        events,
    } = opening;
    let create = made_under(acls, create);
    Open {
        name,
        mode,
        create,
        delay,
        events,
    }
}

fn made_under(acls: AclNames, create: Option<Create>) -> Option<Create>
    ensures { result ≡ made_under acls create }
{
    let Some(create) = create else {
        drop(acls);
        return None;
    };
    let Create {
        disposition,
        node,
        life,
        acls: former,
    } = create;
    drop(former);
    Some(Create {
        disposition,
        node,
        life,
        acls: Some(acls),
    })
}
