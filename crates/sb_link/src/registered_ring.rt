//! A ring that was made.

use crate::ends::RxEnd;
use crate::plan::LinkPlan;

/// A ring that a fabric made, and its receiving end once it was handed back.
#[derive(Drop)]
pub struct RegisteredRing<E: RxEnd> {
    pub plan: LinkPlan,
    pub end: Option<E>,
}
