//! A ring with both ends and the fabric that made it.

ghost use Rattle.std.specs.Prelude.{◌≡◌, [], ◌∷◌, false};

use crate::sender::Sender;
use sb_link::{Fabric, LinkPlan, Pop, Push, RxEnd, TxEnd};
use sb_packet::Packet;
use std::alloc::{AllocError, Global};

/// A ring with both ends and the fabric that made it.
#[derive(Drop)]
pub struct Line<F: Fabric + Drop> {
    fabric: F,
    sender: Sender<F::Tx>,
    rx: F::Rx,
    ghost marks: { F.Tx.mark sender.tx ≡ F.Rx.mark rx },
    ghost made: { F.made fabric ≡ F.Tx.planned sender.tx ∷ [] },
    ghost unsettled: { F.settled fabric (F.Tx.planned sender.tx).ring ≡ false },
}

impl<F: Fabric + Drop> Line<F> {
    /// The first ring of a fabric.
    ///
    /// # Errors
    ///
    /// `AllocError` where there isn't enough memory.
    pub fn new(mut fabric: F, alloc: Global, plan: &LinkPlan) -> Result<Line<F>, AllocError>
        requires unused { F.made fabric ≡ [] }
    {
        let (tx, rx) = fabric.make(alloc, plan)?;
        Ok(Line {
            fabric,
            sender: Sender::new(tx),
            rx,
        })
    }

    /// Sends a packet, where it may be sent.
    pub fn push(&mut self, packet: &Packet) -> Option<Push> {
        self.sender.push(packet)
    }

    /// Publishes what was sent.
    pub fn flush(&mut self) {
        self.sender.flush();
    }

    /// Ends the traffic.
    pub fn close(&mut self) -> Option<Push> {
        self.sender.close()
    }

    /// Receives the next item.
    pub fn pop(&mut self) -> Pop {
        self.rx.try_pop()
    }

    /// Hands over what the fabric keeps back.
    pub fn hand(&mut self) {
        F::hand(&mut self.sender.tx, &mut self.rx);
    }

    /// Hands the ends back to the fabric.
    pub fn settle(self) -> F {
        let Line {
            mut fabric,
            sender,
            rx,
            ..
        } = self;
        let Sender { tx, .. } = sender;
        fabric.settle(tx, rx);
        fabric
    }

    /// Both ends, for a thread each.
    pub fn split(self) -> (Sender<F::Tx>, F::Rx) {
        let Line { sender, rx, .. } = self;
        (sender, rx)
    }
}
