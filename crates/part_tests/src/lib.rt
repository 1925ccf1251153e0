//! Tests of the lowest crates by their calls: lists and tables, names and lines, messages' numbers, leases, locks, rights and the
//! gate, the client's cache, sessions and their events, a new store's rows.
#![tactic(auto)]

#[cfg(test)]
mod caches;
#[cfg(test)]
mod containers;
#[cfg(test)]
mod events;
#[cfg(test)]
mod leases;
#[cfg(test)]
mod lines;
#[cfg(test)]
mod locks;
#[cfg(test)]
mod messages;
#[cfg(test)]
mod names;
#[cfg(test)]
mod queues;
#[cfg(test)]
mod rights;
#[cfg(test)]
mod room;
#[cfg(test)]
mod rows;
#[cfg(test)]
mod sessions;
