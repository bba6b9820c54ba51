//! A host over ends of any kind.

ghost use Rattle.std.specs.Prelude.{◌≡◌, ◌≢◌, ◌&&◌};
ghost use Rattle.sb_link.specs.declared.answers.Turn.TheVariants.{Moved};
ghost use Rattle.sb_host.specs.Hosts.{IsHostTurn, IsKeptHost, IsWholeHost};
ghost use Rattle.sb_host.specs.Rested.{IsRestedHost};

use crate::serving::{issue_next, receive};
use crate::transactions::Transactions;
use sb_link::{RxEnd, Turn, TxEnd};
use sb_node::{Findings, turn_port};
use sb_port::OutPort;

/// A host over ends of any kind: its transactions, and its two ends.
#[derive(Drop)]
pub struct HostCore<T: TxEnd, U: RxEnd> {
    pub transactions: Transactions,
    pub requests: OutPort<T>,
    pub answers: U,
}

impl<T: TxEnd, U: RxEnd> HostCore<T, U> {
    ghost use Rattle.sb_host.specs.Hosts.{host_core_side};

    // the ring of answers gave Close, and the port sent its own
    fn is_done(&self) -> bool
        ensures { result ≡ (self.now.requests.state.close_sent && self.now.transactions.ended) }
    {
        self.requests.closed() && self.transactions.ended()
    }

    /// One turn: it takes what came, offers its next packet, and then turns its port. Takes no memory.
    pub(crate) fn turn(&mut self, round: u32) -> Turn
        requires whole { IsWholeHost (host_core_side U.RxEnd self.old) }
        ensures turned { IsHostTurn (host_core_side U.RxEnd self.old) round result (host_core_side U.RxEnd self.new) }
        ensures kept { IsKeptHost round (host_core_side U.RxEnd self.old) (host_core_side U.RxEnd self.new) }
        ensures rested { result ≢ Moved → IsRestedHost (host_core_side U.RxEnd self.old) (host_core_side U.RxEnd self.new) }
        ensures whole { IsWholeHost (host_core_side U.RxEnd self.new) }
    {
        let mut found = Findings::new();
        let _popped = receive(&mut self.transactions, &mut self.answers, &mut found);
        let _offered = issue_next(&mut self.transactions, &mut self.requests, &mut found);
        let more = found.moved;
        turn_port(&mut self.requests, more, &mut found);
        if found.moved {
            return Turn::Moved;
        }
        found.turn(self.is_done())
    }
}
