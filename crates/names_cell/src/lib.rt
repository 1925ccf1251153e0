//! The grammar of names, of principals and of ACL files (Burrows 2006, section 2.3).
#![tactic(auto)]

mod acls;
mod components;
mod faults;
mod grammar;
mod paths;
mod principals;

pub use acls::AclList;
pub use components::Component;
pub use faults::NameFault;
pub use paths::Name;
pub use principals::Principal;
