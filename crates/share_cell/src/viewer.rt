//! A reader of the published views.
ghost use Rattle.std.specs.Prelude.{◌≡◌, ◌≤◌, length, max, nat_lt, if◌then◌else◌, MatchResult, IfOk};
ghost use Rattle.left_right.specs.Sides.{view};
ghost use Rattle.share_cell.specs.Published.{StartsWith};
ghost use Rattle.share_cell.specs.Hits.{Hits};

use crate::hit::Hit;
use crate::rule::{Known, Published, Sees};
use crate::side::Side;
use cache_core::Shared;
use core::mem::replace_with;
use crossbeam_utils::CachePadded;
use lease_core::Clock;
use left_right::reader::Reader;
use names_cell::Name;
use node_core::View;
use std::alloc::AllocError;
use std::marker::Model;

// A reader, and the number of published views that it knows of.
#[derive(Drop)]
struct ReaderPlace {
    reader: Reader<Side, Known, Published>,
    front: u64,
}

impl Model for ReaderPlace {
    ghost use Rattle.std.specs.Prelude.{◌≡◌, List, length};
    ghost use Rattle.left_right.specs.Sides.{view as view_of};
    ghost use Rattle.cache_core.specs.Caches.{CacheState};

    ghost Value = { List CacheState };

    ghost view = { λ p. view_of p.reader.place };

    ghost invariant = { λ p. p.front ≡ length (view_of p.reader.place) };
}

/// Who asks what was published. Its front is the number of published views that it knows of.
///
/// A hit writes it, so no other viewer stands on its cache lines, wherever both are kept.
#[derive(Drop)]
pub struct Viewer {
    place: CachePadded<ReaderPlace>,
}

impl Model for Viewer {
    ghost use Rattle.std.specs.Prelude.{List};
    ghost use Rattle.crossbeam_utils.specs.Padded.{padded_value};
    ghost use Rattle.cache_core.specs.Caches.{CacheState};

    ghost Value = { List CacheState };

    ghost view = { λ v. padded_value v.place };
}

/// What the keeper told a viewer: so many views were published.
#[derive(Drop)]
pub struct PublishedCount {
    reader: Reader<Side, Known, Published>,
    count: u64,
}

impl Model for PublishedCount {
    ghost use Rattle.std.specs.Prelude.{◌≡◌, List, length};
    ghost use Rattle.left_right.specs.Sides.{view as view_of};
    ghost use Rattle.cache_core.specs.Caches.{CacheState};

    ghost Value = { List CacheState };

    ghost view = { λ t. view_of t.reader.place };

    ghost invariant = { λ t. t.count ≡ length (view_of t.reader.place) };
}

impl PublishedCount {
    pub(crate) fn of(reader: Reader<Side, Known, Published>, count: u64) -> PublishedCount
        requires { count ≡ length (view reader.place) }
        ensures { result ≡ view reader.place }
    {
        PublishedCount { reader, count }
    }

    /// So many views were published.
    pub fn count(&self) -> u64
        ensures { result ≡ length self.now }
    {
        self.count
    }
}

impl Viewer {
    pub(crate) fn over(reader: Reader<Side, Known, Published>, front: u64) -> Viewer
        requires { front ≡ length (view reader.place) }
        ensures { result ≡ view reader.place }
    {
        Viewer {
            place: CachePadded::new(ReaderPlace { reader, front }),
        }
    }

    /// How many published views it knows of.
    pub fn front(&self) -> u64
        ensures { result ≡ length (self.now) }
    {
        self.place.front()
    }

    /// What the last published view answers. The view is no older than any that this viewer knew of.
    pub fn hit<C: Clock>(&mut self, name: &Name, clock: &C) -> Result<Hit, AllocError>
        ensures { MatchResult result
            (Hits (C.is_reading clock.now) name.now (self.old) (self.new))
            (λ _. StartsWith (self.new) (self.old)) }
    {
        replace_with(
            &mut *self.place,
            (name, clock),
            |place, asked| place.ask(asked.0, asked.1),
        )
    }

    /// From now on the viewer knows of so many views at least.
    pub fn learn(&mut self, told: PublishedCount)
        ensures front { length (self.new) ≡ max (length (self.old)) (length told) }
        ensures known { self.new ≡ (if nat_lt (length (self.old)) (length told) then told else self.old) }
    {
        replace_with(
            &mut *self.place,
            told,
            |place, told| (place.taught(told), ()),
        )
    }
}

impl ReaderPlace {
    fn front(&self) -> u64
        ensures { result ≡ length (self.now) }
    {
        self.front
    }

    fn ask<C: Clock>(self, name: &Name, clock: &C) -> (ReaderPlace, Result<Hit, AllocError>)
        ensures { MatchResult result.1
            (Hits (C.is_reading clock.now) name.now (self) (result.0))
            (λ _. StartsWith (result.0) (self)) }
    {
        let ReaderPlace { reader, front } = self;
        match reader.enter_as::<Sees>() {
            Err(reader) => (ReaderPlace { reader, front }, Ok(Hit::Gone)),
            Ok(reading) => {
                let side = reading.get();
                let front = side.place;
                let now = clock.now();
                let hit = match side.cache.look(name, now) {
                    None => Ok(Hit::Miss),
                    Some(None) => Ok(Hit::Absent),
                    Some(Some(found)) => shared(found),
                };
                let reader = reading.leave();
                (ReaderPlace { reader, front }, hit)
            }
        }
    }

    fn taught(self, told: PublishedCount) -> ReaderPlace
        ensures front { length (result) ≡ max (length (self)) (length told) }
        ensures known { result ≡ (if nat_lt (length (self)) (length told) then told else self) }
    {
        if self.front < told.count {
            let PublishedCount { reader, count } = told;
            ReaderPlace {
                reader,
                front: count,
            }
        } else {
            self
        }
    }
}

fn shared(found: &Shared<View>) -> Result<Hit, AllocError>
    ensures { IfOk result (λ h. h ≡ Hit.View found.now) }
{
    Ok(Hit::View(found.clone()?))
}
