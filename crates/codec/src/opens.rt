//! Opens, and what they make.
ghost use Rattle.std.specs.Prelude.{OnOk};
ghost use Rattle.codec.specs.Forms.{Reads, Appends, Form};
ghost use Rattle.codec.specs.Calls.{acl_names, optional_acl_names, new_node, create, optional_create, open_call};

use crate::choices::{
    put_disposition, put_events, put_kind, put_life, put_mode, read_disposition, read_events,
    read_kind, read_life, read_mode,
};
use crate::faults::WireFault;
use crate::inputs::{FLAGS, Input};
use crate::outputs::{put_block, put_byte, put_word};
use crate::texts::{put_component, put_name, read_bytes, read_component, read_name};
use node_core::Kind;
use std::alloc::{AllocError, Global};
use tags_cell::{AclNames, Create, NewNode, Open};

#[tactic(auto, unfolding(crate::specs::Calls::acl_names))]
pub(crate) fn read_acl_names(alloc: Global, input: &mut Input) -> Result<AclNames, WireFault>
    ensures { Reads (λ x. x) result input.new (acl_names.read input.old) }
{
    Ok(AclNames {
        read: read_component(alloc, input)?,
        write: read_component(alloc, input)?,
        change: read_component(alloc, input)?,
    })
}

#[tactic(auto, unfolding(crate::specs::Calls::acl_names))]
pub(crate) fn put_acl_names(out: &mut Vec<u8>, acls: &AclNames) -> Result<(), AllocError>
    ensures { OnOk result (Appends acl_names acls.now out.old.items out.new.items) }
{
    put_component(out, &acls.read)?;
    put_component(out, &acls.write)?;
    put_component(out, &acls.change)
}

#[tactic(auto, unfolding(crate::specs::Calls::optional_acl_names))]
fn read_optional_acl_names(alloc: Global, input: &mut Input) -> Result<Option<AclNames>, WireFault>
    ensures { Reads (λ x. x) result input.new (optional_acl_names.read input.old) }
{
    if input.choice(&FLAGS)? {
        Ok(Some(read_acl_names(alloc, input)?))
    } else {
        Ok(None)
    }
}

#[tactic(auto, unfolding(crate::specs::Calls::optional_acl_names))]
fn put_optional_acl_names(out: &mut Vec<u8>, acls: &Option<AclNames>) -> Result<(), AllocError>
    ensures { OnOk result (Appends optional_acl_names acls.now out.old.items out.new.items) }
{
    match acls {
        Some(acls) => {
            put_byte(out, 1)?;
            put_acl_names(out, acls)
        }
        None => put_byte(out, 0),
    }
}

#[tactic(auto, unfolding(crate::specs::Calls::new_node))]
fn read_new_node(alloc: Global, input: &mut Input) -> Result<NewNode, WireFault>
    ensures { Reads (λ x. x) result input.new (new_node.read input.old) }
{
    match read_kind(input)? {
        Kind::File => Ok(NewNode::File(read_bytes(alloc, input)?)),
        Kind::Directory => Ok(NewNode::Directory),
    }
}

#[tactic(auto, unfolding(crate::specs::Calls::new_node))]
fn put_new_node(out: &mut Vec<u8>, node: &NewNode) -> Result<(), AllocError>
    ensures { OnOk result (Appends new_node node.now out.old.items out.new.items) }
{
    match node {
        NewNode::File(content) => {
            put_kind(out, Kind::File)?;
            put_block(out, content.as_slice())
        }
        NewNode::Directory => put_kind(out, Kind::Directory),
    }
}

#[tactic(auto, unfolding(crate::specs::Calls::create))]
fn read_create(alloc: Global, input: &mut Input) -> Result<Create, WireFault>
    ensures { Reads (λ x. x) result input.new (create.read input.old) }
{
    Ok(Create {
        disposition: read_disposition(input)?,
        node: read_new_node(alloc, input)?,
        life: read_life(input)?,
        acls: read_optional_acl_names(alloc, input)?,
    })
}

#[tactic(auto, unfolding(crate::specs::Calls::create))]
fn put_create(out: &mut Vec<u8>, made: &Create) -> Result<(), AllocError>
    ensures { OnOk result (Appends create made.now out.old.items out.new.items) }
{
    put_disposition(out, made.disposition)?;
    put_new_node(out, &made.node)?;
    put_life(out, made.life)?;
    put_optional_acl_names(out, &made.acls)
}

#[tactic(auto, unfolding(crate::specs::Calls::optional_create))]
fn read_optional_create(alloc: Global, input: &mut Input) -> Result<Option<Create>, WireFault>
    ensures { Reads (λ x. x) result input.new (optional_create.read input.old) }
{
    if input.choice(&FLAGS)? {
        Ok(Some(read_create(alloc, input)?))
    } else {
        Ok(None)
    }
}

#[tactic(auto, unfolding(crate::specs::Calls::optional_create))]
fn put_optional_create(out: &mut Vec<u8>, made: &Option<Create>) -> Result<(), AllocError>
    ensures { OnOk result (Appends optional_create made.now out.old.items out.new.items) }
{
    match made {
        Some(made) => {
            put_byte(out, 1)?;
            put_create(out, made)
        }
        None => put_byte(out, 0),
    }
}

#[tactic(auto, unfolding(crate::specs::Calls::open_call))]
pub(crate) fn read_open(alloc: Global, input: &mut Input) -> Result<Open, WireFault>
    ensures { Reads (λ x. x) result input.new (open_call.read input.old) }
{
    Ok(Open {
        name: read_name(alloc, input)?,
        mode: read_mode(input)?,
        create: read_optional_create(alloc, input)?,
        delay: input.word()?,
        events: read_events(input)?,
    })
}

#[tactic(auto, unfolding(crate::specs::Calls::open_call))]
pub(crate) fn put_open(out: &mut Vec<u8>, asked: &Open) -> Result<(), AllocError>
    ensures { OnOk result (Appends open_call asked.now out.old.items out.new.items) }
{
    put_name(out, &asked.name)?;
    put_mode(out, asked.mode)?;
    put_optional_create(out, &asked.create)?;
    put_word(out, asked.delay)?;
    put_events(out, asked.events)
}
