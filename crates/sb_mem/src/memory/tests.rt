//! Rows of a memory's steps, run.

ghost use Rattle.std.specs.Prelude.{◌≡◌, ◌≤◌, ◌<◌, ◌+◌, ◌-◌, ◌*◌, ◌%◌, ◌^◌, length, IsTrue};
ghost use Rattle.sb_packet.specs.Spans.{carried_of, span_of};
ghost use Rattle.sb_packet.specs.Journals.{is_request};

use super::Memory;
use sb_packet::{AtomicOp, Cmd, Kind, Op, Packet, padded};
use std::alloc::{AllocError, Global};
use std::test::Fail;

const BASE: u64 = 0x1000;

/// A command of one word, for the host 1.
fn command(op: Op, len: u8, size: u8) -> Cmd
    requires len { len ≤ 8 }
    requires size { size ≤ 3 }
    ensures op { result.op ≡ op }
    ensures len { result.len ≡ len }
    ensures size { result.size ≡ size }
{
    Cmd {
        op,
        size,
        len,
        qos: 5,
        prot: 2,
        eom: true,
        eof: false,
        ex: true,
        tail: 1,
        host: 1,
    }
}

/// A packet of one word from an address on.
fn packet(cmd: Cmd, address: u64, bytes: &[u8]) -> Packet
    requires one { span_of cmd ≡ 2 ^ cmd.size }
    requires aligned { address % 8 ≡ 0 }
    requires in_range { address + 8 ≤ 2 ^ 56 }
    requires carried { length bytes.now ≡ carried_of cmd }
    ensures cmd { result.cmd ≡ cmd }
    ensures address { result.dst ≡ address }
    ensures short { span_of result.cmd ≤ 8 }
{
    Packet {
        cmd,
        dst: address,
        src: 0,
        body: padded(bytes),
    }
}

/// A request for one word.
fn request(kind: Kind, size: u8, address: u64, operand: u64) -> Packet
    requires size { size ≤ 3 }
    requires aligned { address % 8 ≡ 0 }
    requires in_range { address + 8 ≤ 2 ^ 56 }
    ensures request { IsTrue (is_request result.cmd.op) }
    ensures address { result.dst ≡ address }
    ensures short { span_of result.cmd ≤ 8 }
{
    let operand = operand.to_le_bytes();
    let bytes = &operand[..word_length(size)];
    match kind {
        Kind::Read => packet(command(Op::ReqRd, 0, size), address, &[]),
        Kind::Write => packet(command(Op::ReqWr, 0, size), address, bytes),
        Kind::Posted => packet(command(Op::ReqWrPosted, 0, size), address, bytes),
        Kind::Atomic(atomic) => {
            packet(
                command(Op::ReqAtomic, atomic.number(), size),
                address,
                bytes,
            )
        }
    }
}

/// The number of bytes of a word.
fn word_length(size: u8) -> usize
    requires { size ≤ 3 }
    ensures length { result ≡ 2 ^ size }
    ensures short { result ≤ 8 }
{
    1 << size
}

/// What an answer says: its opcode, its code, its `len` and its word.
fn said(answer: Option<Packet>) -> Option<(Op, u8, u8, u64)> {
    let p = answer?;
    let word = u64::from_le_bytes(padded(&p.body[..8]));
    Some((p.cmd.op, p.cmd.tail, p.cmd.len, word))
}

/// What a memory of one byte, and zeros behind it, answers to a request for it, and what it leaves of it.
fn step_byte(
    alloc: Global,
    readonly: bool,
    byte: u8,
    kind: Kind,
    operand: u64,
) -> Result<(Option<(Op, u8, u8, u64)>, u8), AllocError> {
    let mut memory = Memory::new(alloc, BASE, 1, readonly, &[byte])?;
    let answer = memory.step(&request(kind, 0, BASE, operand));
    Ok((said(answer), memory.image()[0]))
}

#[test]
fn bytes_are_answered_and_left(rt: HostRuntime) -> Result<(), Fail> {
    let rows = [
        (true, 7, Kind::Read, 0, Some((Op::RespRd, 0, 0, 7)), 7),
        (true, 7, Kind::Write, 9, Some((Op::RespWr, 2, 0, 0)), 7),
        (true, 7, Kind::Posted, 9, None, 7),
        (
            true,
            7,
            Kind::Atomic(AtomicOp::Swap),
            9,
            Some((Op::RespRd, 2, 0, 0)),
            7,
        ),
        (false, 7, Kind::Read, 0, Some((Op::RespRd, 0, 0, 7)), 7),
        (false, 7, Kind::Write, 9, Some((Op::RespWr, 0, 0, 0)), 9),
        (false, 7, Kind::Posted, 9, None, 9),
        // MAX and MAXU of 127 and the byte 0x80, which is -128 in two's complement
        (
            false,
            0x7f,
            Kind::Atomic(AtomicOp::Max),
            0x80,
            Some((Op::RespRd, 0, 0, 0x7f)),
            0x7f,
        ),
        (
            false,
            0x7f,
            Kind::Atomic(AtomicOp::MaxU),
            0x80,
            Some((Op::RespRd, 0, 0, 0x7f)),
            0x80,
        ),
        // ADD wraps
        (
            false,
            1,
            Kind::Atomic(AtomicOp::Add),
            0xff,
            Some((Op::RespRd, 0, 0, 1)),
            0,
        ),
    ];
    for (readonly, byte, kind, operand, answer, left) in rows {
        let found = step_byte(rt.alloc(), readonly, byte, kind, operand)?;
        assert_eq!(rt;
            found,
            (answer, left),
            "at {kind:?} of {operand}, read-only: {readonly}"
        );
    }
    Ok(())
}

/// What an atomic answers, and what it leaves, of a word that was written.
fn step_word(
    alloc: Global,
    atomic: AtomicOp,
    size: u8,
    old: u64,
    operand: u64,
) -> Result<(u64, u64), AllocError>
    requires { size ≤ 3 }
{
    let mut memory = Memory::new(alloc, BASE, 1, false, &[])?;
    let _ = memory.step(&request(Kind::Write, size, BASE, old));
    let answer = memory.step(&request(Kind::Atomic(atomic), size, BASE, operand));
    let left = memory.step(&request(Kind::Read, size, BASE, 0));
    Ok((word_of(answer), word_of(left)))
}

/// The word of an answer with code 0.
fn word_of(answer: Option<Packet>) -> u64 {
    match said(answer) {
        Some((Op::RespRd, 0, 0, word)) => word,
        _ => 0xdead_dead,
    }
}

/// A word bit by bit, by what the rule says where none, one or both of the operands have the bit.
fn bit_by_bit(a: u64, b: u64, rule: [bool; 3]) -> u64 {
    let mut word = 0;
    for i in 0..64_u32 {
        let a_has = a >> i & 1 == 1;
        let b_has = b >> i & 1 == 1;
        let set = if a_has && b_has {
            rule[2]
        } else if a_has || b_has {
            rule[1]
        } else {
            rule[0]
        };
        if set {
            word |= 1 << i;
        }
    }
    word
}

/// What a word of so many bits stands for in two's complement.
fn signed(bits: u32, a: u64) -> i128
    requires small { bits ≤ 64 }
    requires some { 1 ≤ bits }
{
    let modulus = 1_i128 << bits;
    let number = i128::from(a);
    if number >= modulus / 2 {
        number - modulus
    } else {
        number
    }
}

/// What an atomic has to leave, in whole numbers.
fn expected(atomic: AtomicOp, bits: u32, a: u64, b: u64) -> u64
    requires small { bits ≤ 64 }
    requires some { 1 ≤ bits }
{
    let a_is_more = signed(bits, a) > signed(bits, b);
    match atomic {
        AtomicOp::Add => ((u128::from(a) + u128::from(b)) % (1_u128 << bits)) as u64,
        AtomicOp::And => bit_by_bit(a, b, [false, false, true]),
        AtomicOp::Or => bit_by_bit(a, b, [false, true, true]),
        AtomicOp::Xor => bit_by_bit(a, b, [false, true, false]),
        AtomicOp::Max => if a_is_more { a } else { b },
        AtomicOp::Min => if a_is_more { b } else { a },
        AtomicOp::MaxU => if a > b { a } else { b },
        AtomicOp::MinU => if a > b { b } else { a },
        AtomicOp::Swap => b,
    }
}

#[test]
fn atomics_do_as_their_types_say(rt: HostRuntime) -> Result<(), Fail> {
    let sizes: [(u8, u32, u64, u64); 4] = [
        (0, 8, 0xff, 0x80),
        (1, 16, 0xffff, 0x8000),
        (2, 32, 0xffff_ffff, 0x8000_0000),
        (3, 64, 0xffff_ffff_ffff_ffff, 0x8000_0000_0000_0000),
    ];
    for (size, bits, greatest, sign) in sizes {
        assert!(rt; size <= 3 && bits <= 64 && bits >= 1 && sign >= 1);
        let words = [0, 1, greatest, sign, sign - 1];
        for number in 0..9 {
            let atomic = AtomicOp::numbered(number);
            for old in words {
                for operand in words {
                    let found = step_word(rt.alloc(), atomic, size, old, operand)?;
                    let left = expected(atomic, bits, old, operand);
                    assert_eq!(rt;
                        found,
                        (old, left),
                        "{atomic:?}, size {size}: {old}, {operand}"
                    );
                }
            }
        }
    }
    Ok(())
}

/// A memory whose image is so many bytes 0xa5: its length, its first and its last byte, and what it answers to a read
/// of its last word.
fn edges(
    alloc: Global,
    base: u64,
    pages: u32,
    filled: usize,
) -> Result<(usize, u8, u8, u64), AllocError>
    requires aligned { base % 4096 ≡ 0 }
    requires some { 0 < pages }
    requires few { pages ≤ 256 }
    requires in_range { base + pages * 4096 ≤ 2 ^ 56 }
    requires fits { filled ≤ pages * 4096 }
{
    let image = vec![in alloc; 0xa5_u8; filled]?;
    let mut memory = Memory::new(alloc, base, pages, false, &image)?;
    let last = u64::from(pages) * 4096 - 8;
    let answer = memory.step(&request(Kind::Read, 3, base + last, 0));
    let bytes = memory.image();
    Ok((
        bytes.len(),
        bytes[0],
        bytes[bytes.len() - 1],
        word_of(answer),
    ))
}

#[test]
fn memories_of_all_sizes(rt: HostRuntime) -> Result<(), Fail> {
    let end = 1_u64 << 56;
    let full = 0xa5a5_a5a5_a5a5_a5a5;
    let empty = edges(rt.alloc(), 0, 1, 0)?;
    assert_eq!(rt; empty, (0x1000, 0, 0, 0));
    let last_page = edges(rt.alloc(), end - 0x1000, 1, 0x1000)?;
    assert_eq!(rt; last_page, (0x1000, 0xa5, 0xa5, full));
    let greatest = edges(rt.alloc(), end - 0x10_0000, 256, 0x10_0000)?;
    assert_eq!(rt; greatest, (0x10_0000, 0xa5, 0xa5, full));
    let one_byte = edges(rt.alloc(), 0x1000, 256, 1)?;
    assert_eq!(rt; one_byte, (0x10_0000, 0xa5, 0, 0));
    Ok(())
}
