//! The packets of a transaction.

ghost use Rattle.std.specs.Prelude.{◌≡◌, ◌≤◌, ◌<◌, ◌+◌, ◌-◌, ◌*◌, ◌/◌, ◌%◌, ◌^◌, ℕ, Some, false, drop, length, slice_get, take};
ghost use Rattle.sb_word.specs.declared.command.Op.TheVariants.{ReqAtomic};
ghost use Rattle.sb_packet.specs.Messages.{atomic_of, message_of};
ghost use Rattle.sb_packet.specs.Spans.{carried_by, carried_of, span_of, word_count_by, word_count_of};
ghost use Rattle.sb_packet.specs.Cuts.{cut_parts, part_of};
ghost use Rattle.sb_packet.specs.Scripts.{atomic_of_kind, reply_address, request_message, request_of, IsOneWordIfAtomic, IsTransaction};

use crate::packet::Packet;
use crate::padding::padded;
use crate::spans::words_span;
use crate::transaction::{Kind, Txn};
use sb_word::{Cmd, Op};

/// The addresses to which the answers to one host go.
const HOST_ADDRESSES: u64 = 1 << 40;

/// Those to which the answers to one transaction go.
const TRANSACTION_ADDRESSES: u64 = 1 << 11;

/// How many packets a transaction is, 1 to 64, where none speaks of more than `limit` bytes, which is 32. It takes no
/// memory.
pub fn packets(txn: &Txn, limit: u8) -> u32
    requires limit { limit ≡ 32 }
    requires txn { IsTransaction txn.now }
    ensures packets { (id qos prot i : ℕ) → result ≡ length (cut_parts limit (request_message id qos prot i txn.now)) }
    ensures some { 0 < result }
    ensures few { result ≤ 64 }
{
    let words = words_a_packet(txn.size, limit);
    u32::from(txn.count).div_ceil(words)
}

/// Packet k of a transaction, counted from 0: the transaction is number `index`, below 65,536, in the script of the host
/// with this id, 0 to 31, qos, 0 to 15, and prot, 0 to 3. No packet speaks of more than `limit` bytes, which is 32, and
/// only the last ends the transaction. It takes no memory.
#[tactic(auto, using(crate::proofs::PacketsOfTransactions::packet_begins))]
pub fn packet_of(id: u8, qos: u8, prot: u8, index: u32, txn: &Txn, limit: u8, k: u32) -> Packet
    requires limit { limit ≡ 32 }
    requires txn { IsTransaction txn.now }
    requires id { id ≤ 31 }
    requires qos { qos ≤ 15 }
    requires prot { prot ≤ 3 }
    requires index { index < 65536 }
    requires k { k < length (cut_parts limit (request_message id qos prot index txn.now)) }
    ensures packet { slice_get (cut_parts limit (request_message id qos prot index txn.now)) k ≡ Some (message_of result) }
    ensures op { result.cmd.op ≡ request_of txn.now.kind }
    ensures first { txn.now.addr ≤ result.dst }
    ensures last { result.dst + span_of result.cmd ≤ txn.now.addr + txn.now.count * 2 ^ txn.now.size }
    ensures host { result.cmd.host ≡ id }
    ensures qos { result.cmd.qos ≡ qos }
    ensures prot { result.cmd.prot ≡ prot }
{
    let words = words_a_packet(txn.size, limit);
    let from = k * words;
    let left = u32::from(txn.count) - from;
    part(
        id,
        qos,
        prot,
        index,
        txn,
        from,
        left.min(words),
        left <= words,
    )
}

/// How many words of that size fill a packet.
fn words_a_packet(size: u8, limit: u8) -> u32
    requires size { size ≤ 3 }
    requires limit { limit ≡ 32 }
    ensures exact { result ≡ limit / 2 ^ size }
    ensures full { result * 2 ^ size ≡ limit }
    ensures some { 4 ≤ result }
    ensures most { result ≤ 32 }
{
    u32::from(limit) >> size
}

/// So many words of a transaction, from one on, as a packet.
fn part(
    id: u8,
    qos: u8,
    prot: u8,
    index: u32,
    txn: &Txn,
    from: u32,
    count: u32,
    last: bool,
) -> Packet
    requires txn { IsTransaction txn.now }
    requires id { id ≤ 31 }
    requires qos { qos ≤ 15 }
    requires prot { prot ≤ 3 }
    requires index { index < 65536 }
    requires some { 0 < count }
    requires inside { from + count ≤ txn.now.count }
    requires fits { count * 2 ^ txn.now.size ≤ 32 }
    ensures { message_of result ≡ part_of (request_message id qos prot index txn.now) from count last }
{
    let start = words_span(txn.size, from);
    let end = words_span(txn.size, from + count);
    let cmd = command(id, qos, prot, txn, count, last);
    request(
        cmd,
        txn.addr + u64::from(start),
        first_reply_address(id, index) + u64::from(start),
        share(txn, start as usize, end as usize),
    )
}

/// Where the answer to a transaction's first word goes.
fn first_reply_address(id: u8, index: u32) -> u64
    requires id { id ≤ 31 }
    requires index { index < 65536 }
    ensures { result ≡ reply_address id index }
{
    u64::from(id) * HOST_ADDRESSES + u64::from(index) * TRANSACTION_ADDRESSES
}

/// What a transaction carries between two places of its bytes: nothing where it is a read.
fn share(txn: &Txn, start: usize, end: usize) -> &[u8]
    requires txn { IsTransaction txn.now }
    requires order { start ≤ end }
    requires inside { end ≤ txn.now.count * 2 ^ txn.now.size }
    ensures bytes { result.now ≡ take (end - start) (drop start txn.now.body) }
    ensures len { length result.now ≡ carried_by (request_of txn.now.kind) (end - start) }
{
    let body = txn.body.as_slice();
    &body[start.min(body.len())..end.min(body.len())]
}

/// The opcode that asks for a kind of transaction.
fn opcode(kind: Kind) -> Op
    ensures { result ≡ request_of kind }
{
    match kind {
        Kind::Read => Op::ReqRd,
        Kind::Write => Op::ReqWr,
        Kind::Posted => Op::ReqWrPosted,
        Kind::Atomic(_) => Op::ReqAtomic,
    }
}

/// The `len` of so many words of a transaction: an atomic has its number there.
fn len(kind: Kind, count: u32) -> u8
    requires some { 0 < count }
    requires few { count ≤ 256 }
    requires atomic { IsOneWordIfAtomic kind count }
    ensures words { word_count_by (request_of kind) result ≡ count }
    ensures atomic { atomic_of (request_of kind) result ≡ atomic_of_kind kind }
    ensures type_fits { request_of kind ≡ ReqAtomic → result ≤ 8 }
{
    match kind {
        Kind::Atomic(atomic) => atomic.number(),
        Kind::Read | Kind::Write | Kind::Posted => (count - 1) as u8,
    }
}

/// The command of so many words of a transaction.
fn command(id: u8, qos: u8, prot: u8, txn: &Txn, count: u32, last: bool) -> Cmd
    requires size { txn.now.size ≤ 3 }
    requires id { id ≤ 31 }
    requires qos { qos ≤ 15 }
    requires prot { prot ≤ 3 }
    requires some { 0 < count }
    requires few { count ≤ 256 }
    requires atomic { IsOneWordIfAtomic txn.now.kind count }
    ensures op { result.op ≡ request_of txn.now.kind }
    ensures words { word_count_of result ≡ count }
    ensures atomic { atomic_of result.op result.len ≡ atomic_of_kind txn.now.kind }
    ensures size { result.size ≡ txn.now.size }
    ensures qos { result.qos ≡ qos }
    ensures prot { result.prot ≡ prot }
    ensures eom { result.eom ≡ last }
    ensures eof { result.eof ≡ false }
    ensures ex { result.ex ≡ false }
    ensures tail { result.tail ≡ 0 }
    ensures host { result.host ≡ id }
{
    Cmd {
        op: opcode(txn.kind),
        size: txn.size,
        len: len(txn.kind, count),
        qos,
        prot,
        eom: last,
        eof: false,
        ex: false,
        tail: 0,
        host: id,
    }
}

/// A packet with that command and these bytes.
fn request(cmd: Cmd, dst: u64, src: u64, bytes: &[u8]) -> Packet
    requires fits { span_of cmd ≤ 32 }
    requires dst_aligned { dst % 2 ^ cmd.size ≡ 0 }
    requires src_aligned { src % 2 ^ cmd.size ≡ 0 }
    requires dst_in_range { dst + span_of cmd ≤ 2 ^ 56 }
    requires src_in_range { src + span_of cmd ≤ 2 ^ 56 }
    requires carried { length bytes.now ≡ carried_of cmd }
    ensures cmd { result.cmd ≡ cmd }
    ensures dst { result.dst ≡ dst }
    ensures src { result.src ≡ src }
    ensures bytes { take (carried_of cmd) result.body ≡ bytes.now }
{
    let body = padded(bytes);
    Packet {
        cmd,
        dst,
        src,
        body,
    }
}

#[cfg(test)]
mod tests {
    use super::*;
    use crate::bytes::Bytes;
    use sb_word::AtomicOp;
    use std::alloc::{AllocError, Global};
    use std::test::Fail;

    /// Where each packet goes, where its answer does, its `len`, and whether it ends the transaction, which is number 3
    /// of host 1.
    fn shapes(alloc: Global, txn: &Txn) -> Result<Vec<(u64, u64, u8, bool)>, AllocError>
        requires { IsTransaction txn.now }
    {
        let mut shapes = Vec::new(alloc);
        for k in 0..packets(txn, 32) {
            let p = packet_of(1, 0, 0, 3, txn, 32, k);
            shapes.push((p.dst, p.src, p.cmd.len, p.cmd.eom))?;
        }
        Ok(shapes)
    }

    #[test]
    fn cuts_transactions(rt: HostRuntime) -> Result<(), Fail> {
        let alloc = rt.alloc();
        let answers = 0x100_0000_1800;

        let write = Txn {
            kind: Kind::Write,
            size: 3,
            addr: 0x1000,
            count: 256,
            body: Bytes::new(vec![in alloc; 7; 2048]?),
        };
        let mut full = Vec::new(alloc);
        for k in 0..64 {
            full.push((0x1000 + 32 * k, answers + 32 * k, 3, k == 63))?;
        }
        assert_eq!(rt; shapes(alloc, &write)?, full);

        let read = Txn {
            kind: Kind::Read,
            size: 3,
            addr: 0x100,
            count: 5,
            body: Bytes::new(Vec::new(alloc)),
        };
        let two = [(0x100, answers, 3, false), (0x120, answers + 32, 0, true)];
        assert_eq!(rt; shapes(alloc, &read)?.as_slice(), two.as_slice());

        let swap = Txn {
            kind: Kind::Atomic(AtomicOp::Swap),
            size: 2,
            addr: 0x1004,
            count: 1,
            body: Bytes::new(vec![in alloc; 7; 4]?),
        };
        let one = [(0x1004, answers, 8, true)];
        assert_eq!(rt; shapes(alloc, &swap)?.as_slice(), one.as_slice());
        Ok(())
    }
}
