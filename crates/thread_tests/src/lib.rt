//! Tests with threads: of masters behind one lock, and of caches that many threads read.
#![tactic(auto)]

#[cfg(test)]
mod lines;
#[cfg(test)]
mod meetings;
#[cfg(test)]
mod readers;
#[cfg(test)]
mod rows;
#[cfg(test)]
mod stages;
#[cfg(test)]
mod watches;
