//! Threads that go on with the round of a group.

ghost use Rattle.std.specs.Prelude.{◌≡◌};
ghost use Rattle.sb_drive.specs.SideBySide.{GoesOnAt};

use crate::gate::Gate;
use crate::group::Group;
use crate::node::Node;
use crate::sweep::{all_done, go_on};
use sb_places::{Visited, Visitor};
use std::snapshot::Snapshot;

/// Goes on with a round of a group, whichever thread has it.
#[derive(Drop)]
pub(crate) struct GroupVisitor<'a, N, G> {
    /// The groups before the first visit.
    pub before: Snapshot<Vec<Group<N>>>,
    /// The round's number.
    pub number: u32,
    /// So many sweeps are made at most in a visit.
    pub sweeps: u32,
    pub gate: &'a G,
}

impl<'a, N: Node + Send, G: Gate + Sync> Visitor for GroupVisitor<'a, N, G> {
    type Value = Group<N>;

    ghost keeps = { λ visitor place group. GoesOnAt N.reaches N.rests N.turns visitor.number N.whole visitor.before.value.items place group };

    fn visit(&self, place: usize, group: &mut Group<N>) -> Visited {
        self.gate.enter(u32::try_from(place).unwrap_or(u32::MAX));
        if go_on(group, self.sweeps, self.number) {
            Visited::Moved
        } else if all_done(&group.last) {
            Visited::Done
        } else {
            Visited::Idle
        }
    }
}
