//! A fabric that passes every call on to another one: a place from which to watch what goes over the rings.

use crate::answers::{Pop, Push};
use crate::ends::{RxEnd, TxEnd};
use crate::fabric::{Fabric, MeetFabric};
use crate::plan::LinkPlan;
use sb_packet::Item;
use std::alloc::{AllocError, Global};

/// A sending end that passes every call on to another one.
#[derive(Drop)]
pub struct PassOnTx<T: TxEnd> {
    pub inner: T,
}

impl<T: TxEnd> TxEnd for PassOnTx<T> {
    ghost planned = { λ end. T.planned end.inner };

    ghost sent = { λ end. T.sent end.inner };

    ghost published = { λ end. T.published end.inner };

    ghost taken = { λ end. T.taken end.inner };

    ghost mark = { λ end. T.mark end.inner };

    fn plan(&self) -> &LinkPlan {
        self.inner.plan()
    }

    fn try_push(&mut self, item: &Item) -> Push {
        self.inner.try_push(item)
    }

    fn flush(&mut self) {
        self.inner.flush();
    }

    ghost in_turn = { λ end. T.in_turn end.inner };

    ghost published_first = { λ end. T.published_first end.inner };
}

/// A receiving end that passes every call on to another one.
#[derive(Drop)]
pub struct PassOnRx<U: RxEnd> {
    pub inner: U,
}

impl<U: RxEnd> RxEnd for PassOnRx<U> {
    ghost planned = { λ end. U.planned end.inner };

    ghost received = { λ end. U.received end.inner };

    ghost known = { λ end. U.known end.inner };

    ghost mark = { λ end. U.mark end.inner };

    fn plan(&self) -> &LinkPlan {
        self.inner.plan()
    }

    fn try_pop(&mut self) -> Pop {
        self.inner.try_pop()
    }

    ghost in_turn = { λ end. U.in_turn end.inner };
}

/// A fabric whose rings are those of another one.
#[derive(Drop)]
pub struct PassOn<F: Fabric> {
    pub inner: F,
}

impl<F: Fabric> Fabric for PassOn<F> {
    type Tx = PassOnTx<F::Tx>;

    type Rx = PassOnRx<F::Rx>;

    ghost made = { λ fabric. F.made fabric.inner };

    ghost carried = { λ fabric. F.carried fabric.inner };

    ghost settled = { λ fabric. F.settled fabric.inner };

    ghost prompt = { F.prompt };

    fn make(
        &mut self,
        alloc: Global,
        plan: &LinkPlan,
    ) -> Result<(PassOnTx<F::Tx>, PassOnRx<F::Rx>), AllocError> {
        let (tx, rx) = self.inner.make(alloc, plan)?;
        Ok((PassOnTx { inner: tx }, PassOnRx { inner: rx }))
    }

    fn hand(tx: &mut PassOnTx<F::Tx>, rx: &mut PassOnRx<F::Rx>) {
        F::hand(&mut tx.inner, &mut rx.inner);
    }

    fn settle(&mut self, tx: PassOnTx<F::Tx>, rx: PassOnRx<F::Rx>) {
        let PassOnTx { inner: tx } = tx;
        let PassOnRx { inner: rx } = rx;
        self.inner.settle(tx, rx);
    }
}

impl<F: MeetFabric> MeetFabric for PassOn<F> {
    fn meet(tx: &mut PassOnTx<F::Tx>, rx: &mut PassOnRx<F::Rx>) {
        F::meet(&mut tx.inner, &mut rx.inner);
    }
}
