//! Two places in a run that see each other, which only threads can do.

ghost use Rattle.std.specs.Prelude.{◌<◌};

use sb_drive::Gate;
use std::hint;
use std::sync::atomic::{AtomicU32, Ordering};

/// Two places in a run. What comes to one of them for the second time waits until it sees that something came to the other
/// one for the second time too, or has looked for it `tries` times.
#[derive(Drop)]
pub struct Rendezvous {
    came: [AtomicU32; 2],
    seen: AtomicU32,
    tries: u32,
}

impl Rendezvous {
    pub fn new(tries: u32) -> Rendezvous {
        Rendezvous {
            came: [AtomicU32::new(0), AtomicU32::new(0)],
            seen: AtomicU32::new(0),
            tries,
        }
    }

    /// Something came to a place.
    pub fn wait(&self, place: usize)
        requires place { place < 2 }
    {
        if self.came[place].fetch_add(1, Ordering::SeqCst) != 1 {
            return;
        }
        for _ in 0..self.tries {
            if self.came[1 - place].load(Ordering::SeqCst) > 1 {
                self.seen.fetch_add(1, Ordering::SeqCst);
                return;
            }
            hint::spin_loop();
        }
    }

    /// Whether each of the two saw the other.
    pub fn met(&self) -> bool {
        self.seen.load(Ordering::SeqCst) == 2
    }
}

/// The gate is the two places, for groups 0 and 1. In the first round they come there for the first time one after another,
/// on the calling thread, and for the second time when threads take them.
impl Gate for Rendezvous {
    fn enter(&self, group: u32) {
        match group {
            0 => self.wait(0),
            1 => self.wait(1),
            _ => {}
        }
    }
}
