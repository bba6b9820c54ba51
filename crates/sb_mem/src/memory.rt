//! The byte memory of a device, which is stepped by packets.

ghost use Rattle.std.specs.Prelude.{◌≡◌, ◌≤◌, ◌<◌, ◌+◌, ◌-◌, ◌*◌, ◌%◌, ◌^◌, ◌++◌, ◌↔◌, ◌⊎◌, length, replicate, map, IfOk, IfSome, IfNone, IsNone, IsTrue, Some, None, false, vec_len};
ghost use Rattle.sb_word.specs.declared.command.Op.TheVariants.{ReqRd, ReqWr, ReqWrPosted, ReqAtomic};
ghost use Rattle.sb_packet.specs.Spans.{span_of};
ghost use Rattle.sb_packet.specs.Accesses.{accesses_of};
ghost use Rattle.sb_packet.specs.Journals.{is_request};
ghost use Rattle.sb_packet.specs.Memories.{answers_in, code_number, loaded, memory_after, overwritten, stored, write_code};
ghost use Rattle.sb_mem.specs.AnswerPackets.{IsInRange, IsAnswerTo, answer_packet_body, answer_packet_code};

use crate::answer::answer;
use crate::atomic::combined_bytes;
use sb_packet::{BODY_BYTES, Code, Op, PAGE_BYTES, Packet, padded, span};
use std::alloc::{AllocError, Global};
use std::marker::Model;

/// Whole pages of bytes from one address on.
#[derive(Drop)]
pub struct Memory {
    base: u64,
    bytes: Vec<u8>,
    readonly: bool,
}

impl Model for Memory {
    ghost use Rattle.sb_packet.specs.Memories.{MemoryState};

    ghost Value = { MemoryState };

    ghost view = { λ m. record { base = m.base; bytes = m.bytes.items; readonly = m.readonly } };
}

impl Memory {
    /// A memory of so many pages of 4,096 bytes, 1 to 256, from a page's address on: the image, and zeros behind it.
    /// It fails only where memory is missing.
    pub fn new(
        alloc: Global,
        base: u64,
        pages: u32,
        readonly: bool,
        image: &[u8],
    ) -> Result<Memory, AllocError>
        requires aligned { base % 4096 ≡ 0 }
        requires some { 0 < pages }
        requires few { pages ≤ 256 }
        requires in_range { base + pages * 4096 ≤ 2 ^ 56 }
        requires fits { length image.now ≤ pages * 4096 }
        ensures { IfOk result (λ m. m ≡ record {
          base = base;
          bytes = image.now ++ replicate (pages * 4096 - length image.now) 0;
          readonly = readonly;
        }) }
    {
        let size = pages as usize * PAGE_BYTES as usize;
        let mut bytes = Vec::with_capacity(alloc, size)?;
        bytes.extend_from_slice(image)?;
        bytes.resize(size, 0)?;
        Ok(Memory {
            base,
            bytes,
            readonly,
        })
    }

    /// All bytes, in the order of addresses.
    pub fn image(&self) -> &[u8]
        ensures { result.now ≡ self.now.bytes }
    {
        self.bytes.as_slice()
    }

    /// Steps the memory by each word of a request, in order, and gives the packet that answers it. A posted write has no
    /// answer. Where the memory may not be written, all but reads change nothing, and their answers say that the device refused. It takes
    /// no memory.
    #[inline(always)]
    pub fn step(&mut self, p: &Packet) -> Option<Packet>
        requires request { IsTrue (is_request p.now.cmd.op) }
        requires within { IsInRange self.old p.now }
        ensures posted { IsNone result ↔ (p.now.cmd.op ≡ ReqWrPosted) }
        ensures answers { IfSome result
            (λ a. answers_in self.old (accesses_of p.now) ≡ map Some (accesses_of a)) }
        ensures no_answers { IfNone result
            (answers_in self.old (accesses_of p.now) ≡ map (λ _. None) (accesses_of p.now)) }
        ensures fields { IfSome result (IsAnswerTo p.now) }
        ensures code { IfSome result (λ a. a.cmd.tail ≡ code_number (answer_packet_code self.old p.now.cmd.op)) }
        ensures body { IfSome result (λ a. a.body ≡ answer_packet_body self.old p.now) }
        ensures memory { self.new ≡ memory_after self.old (accesses_of p.now) }
        ensures base { self.new.base ≡ self.old.base }
        ensures size { length self.new.bytes ≡ length self.old.bytes }
        ensures readonly { self.new.readonly ≡ self.old.readonly }
    {
        match p.cmd.op {
            Op::ReqRd => Some(self.read(p)),
            Op::ReqWr => {
                self.write(p);
                Some(answer(p, self.write_code(), [0; BODY_BYTES]))
            }
            Op::ReqWrPosted => {
                self.write(p);
                None
            }
            Op::ReqAtomic => Some(self.combine(p)),
            Op::RespRd | Op::RespWr => unreachable!(),
        }
    }

    /// What a read is answered by.
    #[inline(always)]
    fn read(&self, p: &Packet) -> Packet
        requires op { p.now.cmd.op ≡ ReqRd }
        requires within { IsInRange self.now p.now }
        ensures answers { answers_in self.now (accesses_of p.now) ≡ map Some (accesses_of result) }
        ensures fields { IsAnswerTo p.now result }
        ensures code { result.cmd.tail ≡ code_number Code.Ok }
        ensures body { result.body ≡ answer_packet_body self.now p.now }
    {
        answer(p, Code::Ok, padded(self.held(p)))
    }

    /// Stores what a write carries, where the memory may be written.
    #[inline(always)]
    fn write(&mut self, p: &Packet)
        requires op { (p.now.cmd.op ≡ ReqWr) ⊎ (p.now.cmd.op ≡ ReqWrPosted) }
        requires within { IsInRange self.old p.now }
        ensures memory { self.new ≡ memory_after self.old (accesses_of p.now) }
        ensures base { self.new.base ≡ self.old.base }
        ensures size { length self.new.bytes ≡ length self.old.bytes }
        ensures readonly { self.new.readonly ≡ self.old.readonly }
    {
        if !self.readonly {
            self.store(p.dst, &p.body[..span(&p.cmd) as usize]);
        }
    }

    /// Changes the word of an atomic, where the memory may be written, and gives the packet that answers it.
    #[inline(always)]
    fn combine(&mut self, p: &Packet) -> Packet
        requires op { p.now.cmd.op ≡ ReqAtomic }
        requires within { IsInRange self.old p.now }
        ensures answers { answers_in self.old (accesses_of p.now) ≡ map Some (accesses_of result) }
        ensures fields { IsAnswerTo p.now result }
        ensures code { result.cmd.tail ≡ code_number (write_code self.old) }
        ensures body { result.body ≡ answer_packet_body self.old p.now }
        ensures memory { self.new ≡ memory_after self.old (accesses_of p.now) }
        ensures base { self.new.base ≡ self.old.base }
        ensures size { length self.new.bytes ≡ length self.old.bytes }
        ensures readonly { self.new.readonly ≡ self.old.readonly }
    {
        if self.readonly {
            return answer(p, Code::DevErr, [0; BODY_BYTES]);
        }
        let size = span(&p.cmd) as usize;
        let old: [u8; BODY_BYTES] = padded(self.held(p));
        self.store(p.dst, &combined_bytes(p, &old[..size])[..size]);
        answer(p, Code::Ok, old)
    }

    /// The code of an answer to what would write.
    fn write_code(&self) -> Code
        ensures { result ≡ write_code self.now }
    {
        if self.readonly {
            Code::DevErr
        } else {
            Code::Ok
        }
    }

    /// The bytes that a packet speaks of.
    fn held(&self, p: &Packet) -> &[u8]
        requires within { IsInRange self.now p.now }
        ensures bytes { result.now ≡ loaded self.now p.now.dst (span_of p.now.cmd) }
        ensures count { length result.now ≡ span_of p.now.cmd }
    {
        let place = (p.dst - self.base) as usize;
        &self.bytes[place..place + span(&p.cmd) as usize]
    }

    /// Puts bytes in place of those from an address on.
    fn store(&mut self, address: u64, bytes: &[u8])
        requires low { self.old.base ≤ address }
        requires high { address + length bytes.now ≤ self.old.base + length self.old.bytes }
        ensures { self.new ≡ stored self.old address bytes.now }
    {
        overwrite(&mut self.bytes, (address - self.base) as usize, bytes);
    }
}

/// Puts a piece in place of what stands there.
fn overwrite(bytes: &mut Vec<u8>, place: usize, piece: &[u8])
    requires { place + length piece.now ≤ vec_len bytes.old }
    ensures items { bytes.new.items ≡ overwritten bytes.old.items place piece.now }
    ensures len { vec_len bytes.new ≡ vec_len bytes.old }
{
    bytes[place..place + piece.len()].copy_from_slice(piece);
}

#[cfg(test)]
mod tests;
