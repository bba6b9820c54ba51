//! A sending end that asks of each packet whether it may be sent.

ghost use Rattle.std.specs.Prelude.{◌≡◌, ◌≤◌, false, [], length};
ghost use Rattle.sb_link.specs.Traffic.{has_close, item_accesses};

use crate::carries::carries;
use sb_link::{Push, TxEnd};
use sb_packet::{Item, Packet, word_count};

/// A sending end that sends only what may be sent, and counts the words.
#[derive(Drop)]
pub struct Sender<T: TxEnd> {
    pub(crate) tx: T,
    words: u32,
    closed: bool,
    pub(crate) ghost unclosed: { closed ≡ false → has_close (T.sent tx) ≡ false },
    pub(crate) ghost counted: { length (item_accesses (T.sent tx)) ≤ words },
}

impl<T: TxEnd> Sender<T> {
    /// A sender at an end that has sent nothing.
    pub fn new(tx: T) -> Sender<T>
        requires unused { T.sent tx ≡ [] }
        ensures end { result.tx ≡ tx }
    {
        Sender {
            tx,
            words: 0,
            closed: false,
        }
    }

    /// Sends a packet, where it may be sent; `None` where it may not.
    pub fn push(&mut self, packet: &Packet) -> Option<Push>
        ensures plan { T.planned self.new.tx ≡ T.planned self.old.tx }
        ensures mark { T.mark self.new.tx ≡ T.mark self.old.tx }
    {
        let words = word_count(&packet.cmd);
        let sum = u64::from(self.words) + u64::from(words);
        let plan = self.tx.plan();
        if self.closed || sum > u64::from(plan.budget) || !carries(plan, packet) {
            return None;
        }
        match self.tx.try_push(&Item::Packet(*packet)) {
            Push::Done => {
                self.words += words;
                Some(Push::Done)
            }
            Push::Full { sent, taken } => Some(Push::Full { sent, taken }),
        }
    }

    /// Publishes what was sent.
    pub fn flush(&mut self)
        ensures plan { T.planned self.new.tx ≡ T.planned self.old.tx }
        ensures mark { T.mark self.new.tx ≡ T.mark self.old.tx }
    {
        self.tx.flush();
    }

    /// Ends the traffic; `None` where it was ended before.
    pub fn close(&mut self) -> Option<Push>
        ensures plan { T.planned self.new.tx ≡ T.planned self.old.tx }
        ensures mark { T.mark self.new.tx ≡ T.mark self.old.tx }
    {
        if self.closed || self.words > self.tx.plan().budget {
            return None;
        }
        match self.tx.try_push(&Item::Close) {
            Push::Done => {
                self.closed = true;
                Some(Push::Done)
            }
            Push::Full { sent, taken } => Some(Push::Full { sent, taken }),
        }
    }
}
