//! Laws of whole runs: what follows for a network from what its rings and its nodes promise one by one.

ghost use Rattle.std.specs.Prelude.{◌≡◌, ◌≤◌, ◌<◌, ◌+◌, ◌⊎◌, ℕ, true, false, List, length, All};
ghost use Rattle.sb_packet.specs.Accesses.{Access};
ghost use Rattle.sb_packet.specs.Journals.{IsLawful, IsPlaced};
ghost use Rattle.sb_packet.specs.Networks.{Network};
ghost use Rattle.sb_link.specs.RingPlans.{NetFlow, RingPlan};
ghost use Rattle.sb_link.specs.Traffic.{AreInTurn, item_accesses};
ghost use Rattle.sb_packet.specs.declared.entry.Entry.{Entry};
ghost use Rattle.sb_packet.specs.declared.item.Item.{Item};
ghost use Rattle.sb_laws.specs.Runs.{AreAnswered, BeginsSources, CarriesSources, HasAllEnded, HasEnded, HasEntries, IsHistorySoFar, IsMomentOf, IsWholeRun, KeepsOrder, KeepsPromises, PicksSources};
ghost use Rattle.sb_laws.specs.Flows.{Course, asked_words, given_to};
ghost use Rattle.sb_laws.specs.Standstills.{HasLearnt, IsFinished, IsHostWaiting, IsQuietReceiver, IsQuietSender, IsStandstill, IsWholeStandstill, RoundEnd, Stages};
ghost use Rattle.sb_laws.specs.Layouts.{IsLayout, Layout};
ghost use Rattle.sb_laws.specs.Moments.{ClosesLast, Moment};
ghost use Rattle.sb_laws.specs.Moves.{AreMovingRounds, IsWithinBudget, RingUse, move_bound};

/// At any moment at which the ends of each ring have met, a first part of each flow's source has come by each ring of
/// its way, whatever the other flows of the ring do.
pub fn prefix_along_ways()
    ensures begins { (network : Network) (c : Course) (m : Moment) (source : NetFlow → List Access)
        → KeepsPromises network c m source
        → (r : ℕ) → BeginsSources network c m source r }
{}

/// Whatever is dropped, what has come by a ring of each of its flows is the flow's source, in order, with some left out.
pub fn subsequence_along_ways()
    ensures picks { (network : Network) (c : Course) (m : Moment) (source : NetFlow → List Access)
        → KeepsOrder network c m source
        → (r : ℕ) → PicksSources network c m source r }
{}

/// Where each ring has given its Close, each has carried all of each of its flows.
pub fn whole_along_ways()
    ensures carries { (network : Network) (c : Course) (m : Moment) (source : NetFlow → List Access)
        → KeepsPromises network c m source → All (HasEnded c m) c.flows
        → (r : ℕ) → CarriesSources network c m source r }
{}

/// At any moment at which the ends of each ring have met, each device has taken a first part of what each host asks of
/// it, in order; and of each flow a first part of its words has come by each ring of its way, and a first part of what
/// its device answers by each ring of its way back.
pub fn history_so_far()
    ensures history { (network : Network) (layout : Layout) (journal : List Entry) (m : Moment)
        → IsLayout network layout → IsMomentOf network layout journal m
        → IsHistorySoFar network journal }
    ensures requests { (network : Network) (layout : Layout) (journal : List Entry) (m : Moment)
        → IsLayout network layout → IsMomentOf network layout journal m
        → (r : ℕ) → BeginsSources network layout.requests m (asked_words network) r }
    ensures answers { (network : Network) (layout : Layout) (journal : List Entry) (m : Moment)
        → IsLayout network layout → IsMomentOf network layout journal m
        → (r : ℕ) → BeginsSources network layout.answers m (given_to network journal) r }
{}

/// Where each ring has given its Close, the journal has at each device just what each host asks of it, in order, and
/// each ring carried just its flows: all their words, or all the answers that the journal gives.
pub fn run_is_whole()
    ensures whole { (network : Network) (layout : Layout) (journal : List Entry) (m : Moment)
        → IsLayout network layout → IsMomentOf network layout journal m → HasAllEnded layout m
        → IsWholeRun network layout journal m }
{}

/// At any moment each entry of the journal is of a host, and at a device that all its words aim at; so where each ring
/// has given its Close the journal is one legal history of the network's scripts.
pub fn journal_is_lawful()
    ensures placed { (network : Network) (layout : Layout) (journal : List Entry) (m : Moment)
        → IsLayout network layout → IsMomentOf network layout journal m → HasEntries network journal
        → All (IsPlaced network) journal }
    ensures lawful { (network : Network) (layout : Layout) (journal : List Entry) (m : Moment)
        → IsLayout network layout → IsMomentOf network layout journal m → HasEntries network journal
        → HasAllEnded layout m → IsLawful network journal }
{}

/// So each host finds, for each word that it asked for, just the answer that the journal gives.
pub fn answers_are_the_journals()
    ensures found { (network : Network) (layout : Layout) (journal : List Entry) (m : Moment)
        → IsLayout network layout → IsMomentOf network layout journal m → HasAllEnded layout m
        → All (AreAnswered network layout journal m) layout.requests.flows }
{}

/// Of items that may follow one another by a plan the Close is the last, and their words are within the plan's budget.
pub fn traffic_keeps_to_its_plan()
    ensures closes_last { (plan : RingPlan) (list : List Item) → AreInTurn plan list → ClosesLast list }
    ensures few { (plan : RingPlan) (list : List Item)
        → AreInTurn plan list → length (item_accesses list) ≤ plan.budget }
{}

/// A ring whose ends have met, and over which nothing went since: where its sender finds it full something wasn't
/// received, and where its receiver finds it empty all was.
pub fn learnt_counts_are_true()
    ensures full { (capacity sent received taken known : ℕ)
        → HasLearnt capacity sent received taken known → sent ≡ taken + capacity
        → received < sent }
    ensures empty { (capacity sent received taken known : ℕ)
        → HasLearnt capacity sent received taken known → received ≡ known
        → sent ≤ received }
{}

/// After a round in which no node moved nothing is kept in front of a ring or behind it, and all that was sent over it
/// was received.
pub fn standstill_is_quiet()
    ensures senders { (stages : Stages) (s : RoundEnd)
        → IsStandstill stages s
        → (r : ℕ) → r < stages.rings → stages.comes_in r ≡ false → IsQuietSender s r }
    ensures receivers { (stages : Stages) (s : RoundEnd)
        → IsStandstill stages s
        → (r : ℕ) → r < stages.rings → stages.goes_out r ≡ false → IsQuietReceiver stages s r }
{}

/// After such a round each ring is done, or a host waits for a slot of its window. So where none waits each is done.
pub fn standstill_is_the_end()
    ensures end_or_wait { (stages : Stages) (s : RoundEnd)
        → IsStandstill stages s
        → ((r : ℕ) → r < stages.rings → IsFinished stages s r) ⊎ IsHostWaiting stages s }
    ensures end { (stages : Stages) (s : RoundEnd)
        → IsStandstill stages s → ((r : ℕ) → r < stages.rings → s.waits r ≡ false)
        → (r : ℕ) → r < stages.rings → IsFinished stages s r }
{}

/// In a whole network, where a host waits only while it misses an answer, none waits after such a round: each ring is
/// done, and the run is whole.
pub fn standstill_is_a_whole_run()
    ensures finished { (network : Network) (layout : Layout) (journal : List Entry) (stages : Stages) (s : RoundEnd)
        → IsLayout network layout → IsWholeStandstill network layout journal stages s
        → (r : ℕ) → r < stages.rings → IsFinished stages s r }
    ensures ended { (network : Network) (layout : Layout) (journal : List Entry) (stages : Stages) (s : RoundEnd)
        → IsLayout network layout → IsWholeStandstill network layout journal stages s
        → HasAllEnded layout s.at }
    ensures whole { (network : Network) (layout : Layout) (journal : List Entry) (stages : Stages) (s : RoundEnd)
        → IsLayout network layout → IsWholeStandstill network layout journal stages s
        → IsWholeRun network layout journal s.at }
{}

/// There are no more rounds in which a node moves than the budgets of the rings allow: 4 for each word that may go over
/// a ring, and 4 more, at each of its ends.
pub fn moving_rounds_are_few()
    ensures few { (rings : List ℕ) (budget : ℕ → ℕ) (first : ℕ → RingUse) (later : List (ℕ → RingUse))
        → All (λ r. IsWithinBudget (budget r) (first r)) rings
        → All (λ used. All (λ r. IsWithinBudget (budget r) (used r)) rings) later
        → AreMovingRounds rings first later
        → length later ≤ move_bound rings budget }
{}
