//! What a device does with a request: it steps its memory by it, and puts it into its journal.

ghost use Rattle.std.specs.Prelude.{◌≡◌, ◌<◌, ◌↔◌, [], IfSome, IfNone, IsNone, IsTrue, length};
ghost use Rattle.sb_word.specs.declared.command.Op.TheVariants.{ReqWrPosted};
ghost use Rattle.sb_packet.specs.Accesses.{accesses_of};
ghost use Rattle.sb_packet.specs.Journals.{is_request, with_entry};
ghost use Rattle.sb_packet.specs.Memories.{answers_to, memory_after};
ghost use Rattle.sb_mem.specs.AnswerPackets.{IsAnswerTo, IsInRange};

use crate::memory::Memory;
use sb_packet::{Entry, Journal, Packet};

/// Steps a memory by the request of an entry, puts the entry into the journal, and gives the packet that answers the
/// request. A posted write has no answer. Takes no memory.
#[inline(always)]
pub fn serve(memory: &mut Memory, journal: &mut Journal, entry: &Entry) -> Option<Packet>
    requires request { IsTrue (is_request entry.now.packet.cmd.op) }
    requires within { IsInRange memory.old entry.now.packet }
    requires room { 0 < journal.old.spare }
    ensures posted { IsNone result ↔ (entry.now.packet.cmd.op ≡ ReqWrPosted) }
    ensures answers { IfSome result (λ a. answers_to memory.old (accesses_of entry.now.packet) ≡ accesses_of a) }
    ensures no_answers { IfNone result (answers_to memory.old (accesses_of entry.now.packet) ≡ []) }
    ensures fields { IfSome result (IsAnswerTo entry.now.packet) }
    ensures journal { journal.new ≡ with_entry journal.old entry.now }
    ensures memory { memory.new ≡ memory_after memory.old (accesses_of entry.now.packet) }
    ensures base { memory.new.base ≡ memory.old.base }
    ensures size { length memory.new.bytes ≡ length memory.old.bytes }
    ensures readonly { memory.new.readonly ≡ memory.old.readonly }
{
    let answer = memory.step(&entry.packet);
    journal.add(entry);
    answer
}
