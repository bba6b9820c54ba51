//! The nodes of a network in one type, and the rings between them: what takes turns in a round, and whose ends meet.
#![tactic(auto)]

mod groups;
mod joint;
mod member;
mod pair;

pub use groups::{meet_ring, meet_rings};
pub use joint::Joint;
pub use member::Member;
pub use pair::two;
