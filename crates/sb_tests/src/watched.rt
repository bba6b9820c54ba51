//! A fabric that passes every call on to another one, and tells of its pushes.

use sb_link::{Fabric, LinkPlan, MeetFabric, Pop, Push, RxEnd, TxEnd};
use sb_packet::Item;
use std::alloc::{AllocError, Global};
use std::sync::atomic::{AtomicU32, Ordering};

/// How many packets were sent over each of the first four rings.
#[derive(Drop)]
pub struct Pushes {
    counts: [AtomicU32; 4],
}

impl Pushes {
    pub fn counted() -> Pushes {
        Pushes {
            counts: [
                AtomicU32::new(0),
                AtomicU32::new(0),
                AtomicU32::new(0),
                AtomicU32::new(0),
            ],
        }
    }

    /// How many packets were sent over a ring; 0 for one that isn't counted.
    pub fn count(&self, ring: u16) -> u32 {
        match self.counts.get(usize::from(ring)) {
            Some(count) => count.load(Ordering::SeqCst),
            None => 0,
        }
    }

    // an item was pushed, and the ring had room
    fn sent(&self, ring: u16, item: &Item) {
        if let (Item::Packet(_), Some(count)) = (item, self.counts.get(usize::from(ring))) {
            count.fetch_add(1, Ordering::SeqCst);
        }
    }
}

/// A sending end that is watched.
#[derive(Drop)]
pub struct WatchedTx<'a, T: TxEnd> {
    inner: T,
    watch: &'a Pushes,
}

impl<'a, T: TxEnd> TxEnd for WatchedTx<'a, T> {
    ghost planned = { λ end. T.planned end.inner };

    ghost sent = { λ end. T.sent end.inner };

    ghost published = { λ end. T.published end.inner };

    ghost taken = { λ end. T.taken end.inner };

    ghost mark = { λ end. T.mark end.inner };

    fn plan(&self) -> &LinkPlan {
        self.inner.plan()
    }

    fn try_push(&mut self, item: &Item) -> Push {
        let ring = self.inner.plan().ring;
        let answer = self.inner.try_push(item);
        if let Push::Done = answer {
            self.watch.sent(ring, item);
        }
        answer
    }

    fn flush(&mut self) {
        self.inner.flush();
    }

    ghost in_turn = { λ end. T.in_turn end.inner };

    ghost published_first = { λ end. T.published_first end.inner };
}

/// A receiving end of such a ring.
#[derive(Drop)]
pub struct WatchedRx<U: RxEnd> {
    inner: U,
}

impl<U: RxEnd> RxEnd for WatchedRx<U> {
    ghost planned = { λ end. U.planned end.inner };

    ghost received = { λ end. U.received end.inner };

    ghost known = { λ end. U.known end.inner };

    ghost mark = { λ end. U.mark end.inner };

    fn plan(&self) -> &LinkPlan {
        self.inner.plan()
    }

    fn try_pop(&mut self) -> Pop {
        self.inner.try_pop()
    }

    ghost in_turn = { λ end. U.in_turn end.inner };
}

/// The fabric, with what is told of its pushes.
#[derive(Drop)]
pub struct Watched<'a, F: Fabric + Drop> {
    pub inner: F,
    pub watch: &'a Pushes,
}

impl<'a, F: Fabric + Drop> Fabric for Watched<'a, F> {
    type Tx = WatchedTx<'a, F::Tx>;

    type Rx = WatchedRx<F::Rx>;

    ghost made = { λ fabric. F.made fabric.inner };

    ghost carried = { λ fabric. F.carried fabric.inner };

    ghost settled = { λ fabric. F.settled fabric.inner };

    ghost prompt = { F.prompt };

    fn make(
        &mut self,
        alloc: Global,
        plan: &LinkPlan,
    ) -> Result<(WatchedTx<'a, F::Tx>, WatchedRx<F::Rx>), AllocError> {
        let (tx, rx) = self.inner.make(alloc, plan)?;
        let watch = self.watch;
        Ok((WatchedTx { inner: tx, watch }, WatchedRx { inner: rx }))
    }

    fn hand(tx: &mut WatchedTx<'a, F::Tx>, rx: &mut WatchedRx<F::Rx>) {
        F::hand(&mut tx.inner, &mut rx.inner);
    }

    fn settle(&mut self, tx: WatchedTx<'a, F::Tx>, rx: WatchedRx<F::Rx>) {
        let WatchedTx {
            inner: tx,
            watch: _,
        } = tx;
        let WatchedRx { inner: rx } = rx;
        self.inner.settle(tx, rx);
    }
}

impl<'a, F: MeetFabric + Drop> MeetFabric for Watched<'a, F> {
    fn meet(tx: &mut WatchedTx<'a, F::Tx>, rx: &mut WatchedRx<F::Rx>) {
        F::meet(&mut tx.inner, &mut rx.inner);
    }
}
