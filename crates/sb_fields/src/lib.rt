//! The fields of a bundle: what its JSON text writes, with the first fault of a field or of a number.
#![tactic(auto)]

mod counted;
mod counts;
mod fault;
mod json;
mod narrow;
mod objects;
mod parts;
mod paths;
mod reading;
mod texts;
mod values;

pub use counted::{CountedBundle, CountedDevice, CountedHost, CountedLink, CountedRouter};
pub use fault::LoadFault;
pub use json::spelled;
pub use paths::{item_path, member_path, name_fault};
pub use reading::written;
pub use texts::RouteText;
