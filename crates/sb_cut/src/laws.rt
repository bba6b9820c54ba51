//! Laws over the definitions of cutting and merging.

ghost use Rattle.std.specs.Prelude.{◌≡◌, ◌≤◌, ℕ, true, None, Some, Option, List, [], ◌∷◌, ◌++◌, All, flat_map};
ghost use Rattle.sb_packet.specs.Accesses.{message_accesses};
ghost use Rattle.sb_packet.specs.Cuts.{IsFine, IsSound, IsWhole, cut_parts};
ghost use Rattle.sb_packet.specs.Messages.{Message, message_span};
ghost use Rattle.sb_cut.specs.Widths.{IsCutWidth};
ghost use Rattle.sb_cut.specs.Merges.{is_mergeable, merge};
ghost use Rattle.sb_cut.specs.Folds.{fold_all, listed};

/// Cutting keeps the words, and each part of a sound whole message is sound and whole and fits the width.
pub fn parts_are_fine()
    ensures words { (width : ℕ) (m : Message)
        → flat_map message_accesses (cut_parts width m) ≡ message_accesses m }
    ensures fine { (width : ℕ) (m : Message)
        → IsCutWidth width → IsSound m → IsWhole m → All (IsFine width) (cut_parts width m) }
{}

/// Merging keeps the words: those of the one message and then those of the other. The merge of two sound whole messages
/// is sound and whole, and fits the width.
pub fn merges_are_fine()
    ensures words { (width : ℕ) (a b : Message)
        → is_mergeable width a b ≡ true → IsWhole a → IsWhole b
        → message_accesses (merge a b) ≡ message_accesses a ++ message_accesses b }
    ensures fine { (width : ℕ) (a b : Message)
        → is_mergeable width a b ≡ true → IsFine width a → IsFine width b → IsFine width (merge a b) }
    ensures narrow { (width : ℕ) (a b : Message)
        → is_mergeable width a b ≡ true → message_span (merge a b) ≤ width }
{}

/// A merger that takes one message after another keeps their words, in order. All that goes out and is held may go over
/// a link of that width where all that it held and took may. Two messages that can be merged, taken one directly after
/// the other by a merger that held nothing, are held as one.
pub fn mergers_keep_the_words()
    ensures words { (width : ℕ) (held : Option Message) (list : List Message)
        → All IsWhole (listed held) → All IsWhole list
        → let folded = fold_all width held list in
        flat_map message_accesses (folded.out ++ listed folded.held)
        ≡ flat_map message_accesses (listed held ++ list) }
    ensures fine { (width : ℕ) (held : Option Message) (list : List Message)
        → All (IsFine width) (listed held) → All (IsFine width) list
        → let folded = fold_all width held list in
        All (IsFine width) (folded.out ++ listed folded.held) }
    ensures held_as_one { (width : ℕ) (a b : Message)
        → is_mergeable width a b ≡ true
        → fold_all width None (a ∷ b ∷ []) ≡ record { out = []; held = Some (merge a b) } }
{}
