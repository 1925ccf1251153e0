//! What a step does to a client's cache, as values, for copies of it that readers share.
ghost use Rattle.std.specs.Prelude.{◌≡◌, ◌++◌, ◌∷◌, [], false, IfOk, IsTrue};
ghost use Rattle.cache_core.specs.Caches.{noted};
ghost use Rattle.cache_core.specs.Changes.{applied_all};
ghost use Rattle.client_core.specs.PartOps.{losses, with_flushes, lease_ops};

use cache_core::{Cache, CacheOp};
use lease_core::Lease;
use std::alloc::{AllocError, Global};
use std::collections::VecDeque;
use tags_cell::Invalidation;

/// These, and one more after them.
pub fn with_op(ops: VecDeque<CacheOp>, op: CacheOp) -> Result<VecDeque<CacheOp>, AllocError>
    ensures { IfOk result (λ more. more.items ≡ ops.items ++ op ∷ []) }
{
    let mut ops = ops;
    match ops.push_back(op) {
        Ok(()) => Ok(ops),
        Err(_) => Err(AllocError),
    }
}

/// These, and after them what empties the cache and disables it.
pub fn with_losses(ops: VecDeque<CacheOp>) -> Result<VecDeque<CacheOp>, AllocError>
    ensures { IfOk result (λ more. more.items ≡ ops.items ++ losses) }
{
    let cleared = with_op(ops, CacheOp::Clear)?;
    with_op(cleared, CacheOp::Enabled(false))
}

/// What the noting of the time does to a cache in a session: nothing where its lease runs, or where it is empty and disabled
/// already.
pub fn noted_ops(alloc: Global, cache: &Cache, moment: u64) -> Result<VecDeque<CacheOp>, AllocError>
    ensures { IfOk result (λ ops. applied_all cache.now ops.items ≡ noted cache.now moment) }
{
    let none = VecDeque::new(alloc);
    if cache.is_leased(moment) || is_bare(cache) {
        return Ok(none);
    }
    with_losses(none)
}

fn is_bare(cache: &Cache) -> bool
    ensures { IsTrue result → cache.now ≡ record cache.now { entries = []; enabled = false } }
{
    if cache.is_enabled() {
        return false;
    }
    cache.is_empty()
}

/// These, and after them a flush for each name that an invalidation above this number is of. Clones these names alone.
pub fn with_flushes(
    ops: VecDeque<CacheOp>,
    processed: u64,
    invalidations: &[Invalidation],
) -> Result<VecDeque<CacheOp>, AllocError>
    ensures { IfOk result (λ more. more.items ≡ with_flushes processed ops.items invalidations.now) }
{
    let mut ops = ops;
    for next in invalidations {
        if next.number > processed {
            ops = with_op(ops, CacheOp::Flush(next.name.clone()?))?;
        }
    }
    Ok(ops)
}

/// These, and after them what puts the cache under a lease.
pub fn with_lease(
    ops: VecDeque<CacheOp>,
    lease: Lease,
    moment: u64,
) -> Result<VecDeque<CacheOp>, AllocError>
    ensures { IfOk result (λ more. more.items ≡ ops.items ++ lease_ops lease moment) }
{
    let leased = with_op(ops, CacheOp::Lease(Some(lease)))?;
    if lease.unexpired(moment) {
        with_op(leased, CacheOp::Enabled(true))
    } else {
        with_losses(leased)
    }
}
