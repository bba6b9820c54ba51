//! Routers: nodes that hand on what comes, each flow by the link that leads on.
#![tactic(auto)]

mod causes;
mod ends;
mod inlet;
mod lane;
mod laws;
mod lending;
mod outlet;
mod router;
mod router_core;
mod routes;
mod table;

pub use inlet::Inlet;
pub use lane::Lane;
pub use laws::{
    direction_stays_whole, rested_directions_are_still, router_stays_whole, routers_hand_on,
    routers_keep_their_places, unmoved_directions_are_still,
};
pub use router::{Router, RouterEnds};
pub use router_core::RouterCore;
pub use routes::Routes;

#[cfg(test)]
mod sample;
#[cfg(test)]
mod tests;
