//! The two ends of a ring.

ghost use Rattle.std.specs.Prelude.{◌≡◌, ◌≢◌, ℕ, ◌≤◌, List};
ghost use Rattle.sb_link.specs.RingPlans.{RingPlan};
ghost use Rattle.sb_link.specs.Prefixes.{IsPrefix};
ghost use Rattle.sb_link.specs.Traffic.{AreInTurn, MayFollow};
ghost use Rattle.sb_packet.specs.declared.item.Item.{Item};
ghost use Rattle.sb_packet.specs.declared.item.Item.TheVariants.{Close};
ghost use Rattle.sb_link.specs.declared.answers.Push.TheVariants.{Done};
ghost use Rattle.sb_link.specs.Ends.{Mark, Popped, Pushed};
ghost use Rattle.sb_link.specs.PlanOf.{plan_of};

use crate::answers::{Pop, Push};
use crate::plan::LinkPlan;
use sb_packet::Item;

/// The end of a ring at which items are sent.
pub trait TxEnd: Drop {
    // the plan of its ring
    ghost planned: { Self → RingPlan };
    // the items that were sent, in order
    ghost sent: { Self → List Item };
    // the items that are published: the other end can learn of them without another call of this end
    ghost published: { Self → List Item };
    // how many items it has learnt to have been taken
    ghost taken: { Self → ℕ };
    // which ring it is of
    ghost mark: { Self → Mark };

    /// The plan of the end's ring.
    fn plan(&self) -> &LinkPlan
        ensures plan { plan_of result.now ≡ planned self.now };

    /// Sends an item, where the ring has room by the count of taken items that this call knows. Where it has none, and
    /// where the item is a Close, all that was sent is published afterwards. Takes no memory.
    fn try_push(&mut self, item: &Item) -> Push
        requires lawful { MayFollow (planned self.old) (sent self.old) item.now }
        ensures pushed { Pushed (planned self.old).capacity (sent self.old) item.now (sent self.new) (taken self.new) result }
        ensures published { IsPrefix (published self.old) (published self.new) }
        ensures refused { result ≢ Done → published self.new ≡ sent self.new }
        ensures closed { item.now ≡ Close → published self.new ≡ sent self.new }
        ensures learnt { taken self.old ≤ taken self.new }
        ensures plan { planned self.new ≡ planned self.old }
        ensures mark { mark self.new ≡ mark self.old };

    /// Publishes what is stored and not yet published, so that the other end can learn of it. It changes nothing that
    /// was sent and learns nothing. Takes no memory.
    fn flush(&mut self)
        ensures published { published self.new ≡ sent self.new }
        ensures sent { sent self.new ≡ sent self.old }
        ensures taken { taken self.new ≡ taken self.old }
        ensures plan { planned self.new ≡ planned self.old }
        ensures mark { mark self.new ≡ mark self.old };

    // whatever was sent was sent in turn
    ghost in_turn: { (end : Self) → AreInTurn (planned end) (sent end) };

    // what is published begins what was sent
    ghost published_first: { (end : Self) → IsPrefix (published end) (sent end) };
}

/// The end of a ring at which items are received.
pub trait RxEnd: Drop {
    // the plan of its ring
    ghost planned: { Self → RingPlan };
    // the items that were received, in order
    ghost received: { Self → List Item };
    // how many items it has learnt to have been sent
    ghost known: { Self → ℕ };
    // which ring it is of
    ghost mark: { Self → Mark };

    /// The plan of the end's ring.
    fn plan(&self) -> &LinkPlan
        ensures plan { plan_of result.now ≡ planned self.now };

    /// Receives the next item, where one waits by the count of sent items that this call knows. After a Close none
    /// ever does. Takes no memory.
    fn try_pop(&mut self) -> Pop
        ensures popped { Popped (planned self.old) (received self.old) (received self.new) (known self.new) result }
        ensures learnt { known self.old ≤ known self.new }
        ensures plan { planned self.new ≡ planned self.old }
        ensures mark { mark self.new ≡ mark self.old };

    // whatever was received may go over the ring in this order
    ghost in_turn: { (end : Self) → AreInTurn (planned end) (received end) };
}
