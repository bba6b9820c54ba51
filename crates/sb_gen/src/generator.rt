//! Draws by a linear congruence.

ghost use Rattle.std.specs.Prelude.{◌≡◌};
ghost use Rattle.sb_gen.specs.Congruence.{draw, state_after};
ghost use Rattle.sb_gen.specs.Drawn.{draws_of};

use crate::draws::Draws;

/// What the state is multiplied by, modulo `2^64`.
const FACTOR: u64 = 6_364_136_223_846_793_005;

/// What is added then.
const SUMMAND: u64 = 1_442_695_040_888_963_407;

/// Draws numbers by a linear congruence modulo `2^64`. Each draw gives the upper 31 bits of the state that it leaves.
#[derive(Clone, Copy, Debug, PartialEq, Eq)]
pub struct Generator {
    pub state: u64,
}

impl Generator {
    /// Begins with a number.
    pub fn new(number: u32) -> Generator
        ensures { result.state ≡ number }
    {
        Generator {
            state: u64::from(number),
        }
    }

    /// The next draw.
    fn next(&mut self) -> u32
        ensures value { result ≡ draw self.old.state 0 }
        ensures state { self.new.state ≡ state_after self.old.state 1 }
    {
        self.state = self.state.wrapping_mul(FACTOR).wrapping_add(SUMMAND);
        (self.state >> 33) as u32
    }

    /// The next six draws.
    pub fn draws(&mut self) -> Draws
        ensures values { result ≡ draws_of self.old.state 0 }
        ensures state { self.new.state ≡ state_after self.old.state 6 }
    {
        let kind = self.next();
        let size = self.next();
        let device = self.next();
        let words = self.next();
        let page = self.next();
        let place = self.next();
        Draws {
            kind,
            size,
            device,
            words,
            page,
            place,
        }
    }
}
