//! Scripts: the words of their lines, the steps that these write, and how these are run on a world. Beside them the settings of
//! a cell, read from a text in TOML.
#![tactic(auto)]

mod crashes;
mod deliveries;
mod faults;
mod limits;
mod lines;
mod reading;
mod scripts;
mod steps;
mod stops;
mod traces;
mod values;
mod words;

pub use crashes::script_with_crashes;
pub use faults::TextFault;
pub use lines::Counted;
pub use reading::read_settings;
pub use scripts::{script, script_on};
pub use steps::{Parsed, read_line, read_step};
pub use words::{content, events, mode, number};
