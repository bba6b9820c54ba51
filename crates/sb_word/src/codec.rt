//! Command words: 32 bits each.

ghost use Rattle.std.specs.Prelude.{◌≡◌, ◌≤◌, ◌*◌, ◌/◌, ◌%◌, ◌^◌, ◌==◌, IfOk};
ghost use Rattle.std.specs.Result.{result_err};
ghost use Rattle.sb_word.specs.declared.command.Cmd.{Cmd};
ghost use Rattle.sb_word.specs.Faults.{opcode_fault, word_fault};
ghost use Rattle.sb_word.specs.Words.{bit_of, opcode_of, word_of, IsWordOf};

use crate::command::{Cmd, Op};
use crate::fault::WordFault;

/// The command of a word, or the first fault of the word: `Invalid`, then `Opcode`, `Size` and `AtomicType`.
pub fn decode(word: u32) -> Result<Cmd, WordFault>
    ensures command { IfOk result (λ c. IsWordOf word c) }
    ensures sum { IfOk result (λ c. word ≡ word_of c) }
    ensures fault { result_err result ≡ word_fault word }
    ensures whole { (c : Cmd) → IsWordOf word c → result ≡ Ok c }
{
    let op = op_of(bits(word, 0, 5))?;
    let size = bits(word, 5, 3);
    if size > 3 {
        return Err(WordFault::Size { value: size });
    }
    let len = bits(word, 8, 8);
    if op == Op::ReqAtomic && len > 8 {
        return Err(WordFault::AtomicType { value: len });
    }
    Ok(Cmd {
        op,
        size,
        len,
        qos: bits(word, 16, 4),
        prot: bits(word, 20, 2),
        eom: bit(word, 22),
        eof: bit(word, 23),
        ex: bit(word, 24),
        tail: bits(word, 25, 2),
        host: bits(word, 27, 5),
    })
}

/// The word of a command.
pub fn encode(cmd: &Cmd) -> u32
    ensures fields { IsWordOf result cmd.now }
    ensures sum { result ≡ word_of cmd.now }
{
    opcode(cmd.op)
        + (u32::from(cmd.size) << 5)
        + (u32::from(cmd.len) << 8)
        + (u32::from(cmd.qos) << 16)
        + (u32::from(cmd.prot) << 20)
        + (u32::from(cmd.eom) << 22)
        + (u32::from(cmd.eof) << 23)
        + (u32::from(cmd.ex) << 24)
        + (u32::from(cmd.tail) << 25)
        + (u32::from(cmd.host) << 27)
}

fn opcode(op: Op) -> u32
    ensures { result ≡ opcode_of op }
{
    match op {
        Op::ReqRd => 0x01,
        Op::RespRd => 0x02,
        Op::ReqWr => 0x03,
        Op::RespWr => 0x04,
        Op::ReqWrPosted => 0x05,
        Op::ReqAtomic => 0x09,
    }
}

fn op_of(opcode: u8) -> Result<Op, WordFault>
    ensures op { IfOk result (λ op. opcode ≡ opcode_of op) }
    ensures fault { result_err result ≡ opcode_fault opcode }
{
    match opcode {
        0x00 => Err(WordFault::Invalid),
        0x01 => Ok(Op::ReqRd),
        0x02 => Ok(Op::RespRd),
        0x03 => Ok(Op::ReqWr),
        0x04 => Ok(Op::RespWr),
        0x05 => Ok(Op::ReqWrPosted),
        0x09 => Ok(Op::ReqAtomic),
        value => Err(WordFault::Opcode { value }),
    }
}

/// So many bits of a word, from one place up.
fn bits(word: u32, from: u32, count: u32) -> u8
    requires from { from ≤ 31 }
    requires count { count ≤ 8 }
    ensures { result ≡ word / 2 ^ from % 2 ^ count }
{
    ((word >> from) & ((1 << count) - 1)) as u8
}

fn bit(word: u32, place: u32) -> bool
    requires { place ≤ 31 }
    ensures { result ≡ (word / 2 ^ place % 2 == 1) }
{
    (word >> place) & 1 == 1
}

#[cfg(test)]
mod tests {
    use super::*;

    /// A command that ends its transaction, with zeros elsewhere.
    fn command(op: Op, size: u8, len: u8, qos: u8, host: u8) -> Cmd
        requires size { size ≤ 3 }
        requires qos { qos ≤ 15 }
        requires host { host ≤ 31 }
        requires len { len ≤ 8 }
    {
        Cmd {
            op,
            size,
            len,
            qos,
            prot: 0,
            eom: true,
            eof: false,
            ex: false,
            tail: 0,
            host,
        }
    }

    /// A command comes back from its word.
    fn there_and_back(cmd: &Cmd) -> Result<Cmd, WordFault>
        ensures { result ≡ Ok cmd.now }
    {
        decode(encode(cmd))
    }

    /// A word comes back from its command.
    fn back_and_there(word: u32) -> Result<u32, WordFault>
        ensures { IfOk result (λ again. again ≡ word) }
    {
        let cmd = decode(word)?;
        Ok(encode(&cmd))
    }

    #[test]
    fn words_and_commands(rt: HostRuntime) {
        let posted = Cmd {
            op: Op::ReqWrPosted,
            size: 0,
            len: 255,
            qos: 0,
            prot: 0,
            eom: true,
            eof: false,
            ex: false,
            tail: 0,
            host: 31,
        };
        let all = Cmd {
            op: Op::RespRd,
            size: 1,
            len: 0xa5,
            qos: 6,
            prot: 2,
            eom: false,
            eof: true,
            ex: true,
            tail: 1,
            host: 21,
        };
        let rows = [
            (0x10400061, command(Op::ReqRd, 3, 0, 0, 2)),
            (0xf840ff05, posted),
            (0x00400849, command(Op::ReqAtomic, 2, 8, 0, 0)),
            (0x08430849, command(Op::ReqAtomic, 2, 8, 3, 1)),
            (0xaba6a522, all),
        ];
        for (word, cmd) in rows {
            assert_eq!(rt; encode(&cmd), word, "at {word:#x}");
            assert_eq!(rt; decode(word), Ok(cmd), "at {word:#x}");
            assert_eq!(rt; there_and_back(&cmd), Ok(cmd));
            assert_eq!(rt; back_and_there(word), Ok(word));
        }
        let faults = [
            (0, WordFault::Invalid),
            (7, WordFault::Opcode { value: 7 }),
            (0x000000a1, WordFault::Size { value: 5 }),
            (0x00400949, WordFault::AtomicType { value: 9 }),
        ];
        for (word, fault) in faults {
            assert_eq!(rt; decode(word), Err(fault), "at {word:#x}");
        }
    }

    /// What a word with that opcode and size, one word long, must give.
    fn expected(opcode: u8, size: u8) -> Result<Cmd, WordFault> {
        let op = match opcode {
            0 => return Err(WordFault::Invalid),
            1 => Op::ReqRd,
            2 => Op::RespRd,
            3 => Op::ReqWr,
            4 => Op::RespWr,
            5 => Op::ReqWrPosted,
            9 => Op::ReqAtomic,
            value => return Err(WordFault::Opcode { value }),
        };
        if size > 3 {
            return Err(WordFault::Size { value: size });
        }
        Ok(command(op, size, 0, 0, 2))
    }

    #[test]
    fn each_opcode_with_each_size(rt: HostRuntime) {
        for opcode in 0..32u8 {
            for size in 0..8u8 {
                let word = 0x10400000 + u32::from(size) * 32 + u32::from(opcode);
                let found = decode(word);
                assert_eq!(rt; found, expected(opcode, size), "at {word:#x}");
                if let Ok(cmd) = found {
                    assert_eq!(rt; encode(&cmd), word);
                }
            }
        }
    }
}
