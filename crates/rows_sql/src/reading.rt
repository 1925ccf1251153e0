//! The rows of a cell, read from the tables of a database.

mod children;
mod entries;
mod inspection;
mod load;
mod reads;
mod stored;

pub use children::children_of;
pub use inspection::inspect;
pub use load::{load_as, load_said};
pub use reads::can_read;
pub use stored::{Acls, Meta, Numbers};
