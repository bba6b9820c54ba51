//! Laws over the definitions: what any two of them have to do with each other, whatever the code does.

ghost use Rattle.std.specs.Prelude.{◌≡◌, ◌≢◌, ◌≤◌, ◌<◌, ◌+◌, ◌*◌, ◌/◌, ◌%◌, ◌^◌, max, take, ℕ, true, false, List, [], ◌∷◌, ◌++◌, length, flat_map, map, sum_by, All, AllPairs};
ghost use Rattle.sb_packet.specs.Accesses.{Access, message_accesses};
ghost use Rattle.sb_packet.specs.Messages.{Message, message_of, message_span};
ghost use Rattle.sb_packet.specs.Memories.{MemoryState, answers_in, memory_after};
ghost use Rattle.sb_packet.specs.Networks.{NetHost, Network, opening_memory};
ghost use Rattle.sb_packet.specs.Scripts.{IsTransaction, reply_address, request_message, script_accesses};
ghost use Rattle.sb_packet.specs.Cuts.{IsFine, IsSound, IsWhole, cut_parts, first_part, is_one_part, other_parts, words_in};
ghost use Rattle.sb_packet.specs.Journals.{journal_accesses, IsLawful};
ghost use Rattle.sb_packet.specs.Answers.{access_run, answer_at_first, answer_body, answer_code};
ghost use Rattle.sb_packet.specs.declared.entry.Entry.{Entry};
ghost use Rattle.sb_packet.specs.declared.packet.Packet.{Packet};
ghost use Rattle.sb_packet.specs.declared.transaction.Txn.{Txn};

/// Cutting keeps the words: those of all parts of a message, one part after another, are the message's own.
pub fn packets_keep_the_words()
    ensures words { (width : ℕ) (m : Message)
        → flat_map message_accesses (cut_parts width m) ≡ message_accesses m }
{}

/// Cutting goes on part by part: a message that is one part is its only one, and any other has its first part and then
/// the parts of what is left behind it, where a word fits the width.
pub fn cuts_go_on()
    ensures one { (width : ℕ) (m : Message)
        → is_one_part width m ≡ true → cut_parts width m ≡ m ∷ [] }
    ensures more { (width : ℕ) (m : Message)
        → 0 < words_in width m → is_one_part width m ≡ false
        → cut_parts width m ≡ first_part width m ∷ cut_parts width (other_parts width m) }
{}

/// Each part of a sound message is sound, where a word fits the width. So are the parts of a sound whole message whole,
/// and none speaks of more bytes than the width, where that is 8 or more.
pub fn parts_are_sound()
    ensures sound { (width : ℕ) (m : Message)
        → 0 < words_in width m → IsSound m → All IsSound (cut_parts width m) }
    ensures fine { (width : ℕ) (m : Message)
        → 8 ≤ width → IsSound m → IsWhole m → All (IsFine width) (cut_parts width m) }
{}

/// What a packet says is whole.
pub fn packets_are_whole()
    ensures whole { (p : Packet) → IsWhole (message_of p) }
{}

/// A transaction as one message is sound and whole, whichever host asks, where it is one of its first 65,536. So all its
/// packets are sound and whole, and none speaks of more than 32 bytes.
pub fn transactions_are_sound()
    ensures sound { (id qos prot i : ℕ) (t : Txn)
        → IsTransaction t → i < 65536 → IsSound (request_message id qos prot i t) }
    ensures whole { (id qos prot i : ℕ) (t : Txn)
        → IsTransaction t → IsWhole (request_message id qos prot i t) }
    ensures fine { (id qos prot i : ℕ) (t : Txn)
        → IsTransaction t → i < 65536 → All (IsFine 32) (cut_parts 32 (request_message id qos prot i t)) }
{}

/// No two words of a script are answered at one address: each reply address is below those of all later words. The
/// bits from 40 on tell the host.
pub fn reply_addresses_differ()
    ensures rise { (host : NetHost)
        → All IsTransaction host.script → AllPairs (λ a b. a.src < b.src) (script_accesses host) }
    ensures host { (host : NetHost)
        → All IsTransaction host.script → length host.script ≤ 65536
        → All (λ a. a.src / 2 ^ 40 ≡ host.id) (script_accesses host) }
{}

/// A transaction and its answers lie within 56 bits, at multiples of the word.
pub fn transactions_are_placed()
    ensures end { (t : Txn) → IsTransaction t → t.addr + t.count * 2 ^ t.size ≤ 2 ^ 56 }
    ensures reply_end { (id i : ℕ) (t : Txn)
        → id ≤ 31 → i < 65536 → IsTransaction t
        → reply_address id i + t.count * 2 ^ t.size ≤ 2 ^ 56 }
    ensures reply_aligned { (id i size : ℕ) → size ≤ 3 → reply_address id i % 2 ^ size ≡ 0 }
    ensures words_aligned { (address j size : ℕ)
        → address % 2 ^ size ≡ 0 → (address + j * 2 ^ size) % 2 ^ size ≡ 0 }
{}

/// An access is found by its reply address: where no two are answered at one address, the first place at which an
/// access stands is its own. So it is where they rise. A run over two lists is the run over the first and then over
/// the second.
pub fn answers_are_found()
    ensures found { (m : MemoryState) (list : List Access)
        → AllPairs (λ a b. a.src ≢ b.src) list
        → map (answer_at_first m list) list ≡ answers_in m list }
    ensures rising { (m : MemoryState) (list : List Access)
        → AllPairs (λ a b. a.src < b.src) list
        → map (answer_at_first m list) list ≡ answers_in m list }
    ensures answers { (m : MemoryState) (xs ys : List Access)
        → answers_in m (xs ++ ys) ≡ answers_in m xs ++ answers_in (memory_after m xs) ys }
    ensures memory { (m : MemoryState) (xs ys : List Access)
        → memory_after m (xs ++ ys) ≡ memory_after (memory_after m xs) ys }
{}

/// The words of a message have its code, and its bytes one after another. Of answers one list after another the code
/// is the greater of both codes, and the body one body and then the other.
pub fn answers_are_joined()
    ensures code { (m : Message) → 0 < m.count → answer_code (message_accesses m) ≡ m.tail }
    ensures body { (m : Message)
        → answer_body (message_accesses m) ≡ take (message_span m) m.bytes }
    ensures codes { (xs ys : List Access)
        → answer_code (xs ++ ys) ≡ max (answer_code xs) (answer_code ys) }
    ensures bodies { (xs ys : List Access)
        → answer_body (xs ++ ys) ≡ answer_body xs ++ answer_body ys }
{}

/// In a lawful journal no two words that a device stepped are answered at one address, whichever hosts they are of.
/// So each of them finds the answer that the device gave at its place.
pub fn lawful_answers_are_found()
    ensures differ { (network : Network) (journal : List Entry)
        → All (λ host. All IsTransaction host.script) network.hosts
        → All (λ host. length host.script ≤ 65536) network.hosts
        → IsLawful network journal
        → (d : ℕ) → AllPairs (λ a b. a.src ≢ b.src) (journal_accesses journal d) }
    ensures found { (network : Network) (journal : List Entry)
        → All (λ host. All IsTransaction host.script) network.hosts
        → All (λ host. length host.script ≤ 65536) network.hosts
        → IsLawful network journal
        → (d : ℕ) → let list = journal_accesses journal d in
        map (answer_at_first (opening_memory network d) list) list ≡ (access_run network d list).answers }
{}
