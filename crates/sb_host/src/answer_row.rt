//! What a host keeps of the answers to a transaction.

ghost use Rattle.std.specs.Prelude.{◌≡◌, ◌≤◌, ◌<◌, ◌*◌, ◌+◌, ◌++◌, ℕ, List, Option, None, IfOk, length, replicate, take, drop, count_by, not};
ghost use Rattle.sb_packet.specs.Accesses.{Access};
ghost use Rattle.sb_host.specs.Rows.{IsRow, with_answer};

use std::alloc::{AllocError, Global};

/// The answers to the words of one transaction.
#[derive(Drop)]
pub struct AnswerRow {
    /// For each word whether it is answered.
    pub answered: Vec<bool>,
    /// How many words aren't.
    pub missing: usize,
    /// The greatest code of those that are.
    pub code: u8,
    /// The bytes that answered all words, with zeros for those that aren't answered.
    pub body: Vec<u8>,
}

// a piece of the bytes is replaced
fn overwrite(bytes: &mut Vec<u8>, place: usize, piece: &[u8])
    requires fits { place + length piece.now ≤ length bytes.old.items }
    ensures written { bytes.new.items ≡ take place bytes.old.items ++ piece.now ++ drop (place + length piece.now) bytes.old.items }
{
    bytes[place..place + piece.len()].copy_from_slice(piece);
}

impl AnswerRow {
    /// No answer to so many words, each of which will bring so many bytes.
    pub fn new(alloc: Global, words: usize, width: usize) -> Result<AnswerRow, AllocError>
        requires words { words ≤ 256 }
        requires width { width ≤ 8 }
        ensures row { IfOk result (IsRow width (replicate words None)) }
    {
        let answered = vec![in alloc; false; words]?;
        let body = vec![in alloc; 0; words * width]?;
        Ok(AnswerRow {
            answered,
            missing: words,
            code: 0,
            body,
        })
    }

    /// Takes the answer to a word, with its code and bytes, where that word isn't answered yet.
    pub fn take(&mut self, word: usize, code: u8, bytes: &[u8])
        requires word { word < length self.old.answered.items }
        requires counted { self.old.missing ≡ count_by not self.old.answered.items }
        requires room { length self.old.body.items ≡ length self.old.answered.items * length bytes.now }
        ensures row { (answers : List (Option Access)) (a : Access)
            → IsRow (length bytes.now) answers self.old → a.tail ≡ code → a.bytes ≡ bytes.now
            → IsRow (length bytes.now) (with_answer answers word a) self.new }
    {
        if self.answered[word] {
            return;
        }
        self.answered[word] = true;
        self.missing -= 1;
        self.code = self.code.max(code);
        overwrite(&mut self.body, word * bytes.len(), bytes);
    }
}
