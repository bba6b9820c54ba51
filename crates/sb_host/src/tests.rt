//! What a host makes of answers, whatever their order.

ghost use Rattle.std.specs.Prelude.{◌≡◌, ◌≤◌, ◌<◌, ◌+◌, ◌*◌, ◌%◌, ◌^◌, List, IfOk, length, replicate, None};
ghost use Rattle.sb_packet.specs.Messages.{atomic_of};
ghost use Rattle.sb_packet.specs.Accesses.{Access};
ghost use Rattle.sb_packet.specs.Scripts.{IsTransaction};
ghost use Rattle.sb_host.specs.Places.{asked_of};
ghost use Rattle.sb_host.specs.Rows.{IsTable};

use crate::cursor::Cursor;
use crate::script_plan::ScriptPlan;
use crate::transaction_plan::TransactionPlan;
use crate::transaction_table::TransactionTable;
use sb_packet::{Bytes, Cmd, Code, Kind, Op, Packet, Txn, TxnState};
use std::alloc::{AllocError, Global};
use std::test::Fail;

/// The first address at which host 1 is answered.
const REPLIES: u64 = 1 << 40;

/// A read of so many words of 8 bytes.
pub(crate) fn read(alloc: Global, count: u16, aimed: bool) -> TransactionPlan
    requires some { 0 < count }
    requires most { count ≤ 256 }
    ensures transaction { IsTransaction result.txn }
{
    TransactionPlan {
        txn: Txn {
            kind: Kind::Read,
            size: 3,
            addr: 0x1000,
            count,
            body: Bytes::new(Vec::new(alloc)),
        },
        aimed,
    }
}

/// A write of four words of 8 bytes, posted or not.
pub(crate) fn write(alloc: Global, kind: Kind, aimed: bool) -> Result<TransactionPlan, AllocError>
    requires kind { IsTransaction (record { kind = kind; size = 3; addr = 0; count = 4; body = replicate 32 7 }) }
    ensures transaction { IfOk result (λ l. IsTransaction l.txn) }
{
    let body = vec![in alloc; 7; 32]?;
    Ok(TransactionPlan {
        txn: Txn {
            kind,
            size: 3,
            addr: 0,
            count: 4,
            body: Bytes::new(body),
        },
        aimed,
    })
}

/// The command of an answer to host 1, of four words of that size.
fn command(op: Op, size: u8, tail: u8) -> Cmd
    requires plain { atomic_of op 3 ≡ None }
    requires size { size ≤ 3 }
    requires tail { tail ≤ 3 }
    ensures op { result.op ≡ op }
    ensures size { result.size ≡ size }
    ensures len { result.len ≡ 3 }
{
    Cmd {
        op,
        size,
        len: 3,
        qos: 0,
        prot: 0,
        eom: true,
        eof: false,
        ex: false,
        tail,
        host: 1,
    }
}

/// Four words of 8 bytes that answer host 1, at that place of its addresses.
pub(crate) fn bytes(place: u64, tail: u8, byte: u8) -> Packet
    requires aligned { place % 8 ≡ 0 }
    requires range { place ≤ 8192 }
    requires tail { tail ≤ 3 }
{
    Packet {
        cmd: command(Op::RespRd, 3, tail),
        dst: REPLIES + place,
        src: 0x1000,
        body: [byte; 32],
    }
}

/// The answer to four words that were written.
fn written(place: u64, tail: u8) -> Packet
    requires aligned { place % 8 ≡ 0 }
    requires range { place ≤ 8192 }
    requires tail { tail ≤ 3 }
{
    Packet {
        cmd: command(Op::RespWr, 3, tail),
        dst: REPLIES + place,
        src: 0x1000,
        body: [0; 32],
    }
}

/// The same of words of 4 bytes.
fn shorter(place: u64) -> Packet
    requires aligned { place % 8 ≡ 0 }
    requires range { place ≤ 8192 }
{
    Packet {
        cmd: command(Op::RespWr, 2, 1),
        dst: REPLIES + place,
        src: 0x1000,
        body: [0; 32],
    }
}

/// What host 1 asks for here: a read of 8 words, a write of 4, a posted write, and a read that is aimed at no device.
fn script_plan(alloc: Global) -> Result<ScriptPlan, AllocError>
    ensures lines { IfOk result (λ o. length o.lines.items ≡ 4) }
{
    let mut lines = Vec::new(alloc);
    lines.push(read(alloc, 8, true))?;
    lines.push(write(alloc, Kind::Write, true)?)?;
    lines.push(write(alloc, Kind::Posted, true)?)?;
    lines.push(read(alloc, 2, false))?;
    Ok(ScriptPlan {
        id: 1,
        qos: 0,
        prot: 0,
        lines,
    })
}

/// How far each of the four transactions has come, where the host has come to transaction `next`.
fn states(table: &TransactionTable, script_plan: &ScriptPlan, next: usize) -> [TxnState; 4]
    requires lines { length script_plan.now.lines.items ≡ 4 }
    requires rows { length table.now.rows.items ≡ 4 }
{
    [
        table.state(script_plan, next, 0),
        table.state(script_plan, next, 1),
        table.state(script_plan, next, 2),
        table.state(script_plan, next, 3),
    ]
}

/// Takes these answers one after another.
fn take_all(table: &mut TransactionTable, script_plan: &ScriptPlan, answers: &[Packet])
    requires table { (received : List Access) × IsTable (asked_of script_plan.now) received table.old.rows.items }
    ensures table { (received : List Access) × IsTable (asked_of script_plan.now) received table.new.rows.items }
{
    for answer in answers {
        table.take(script_plan, answer);
    }
}

/// What host 1 asks for there: a read of 256 words.
fn long_script_plan(alloc: Global) -> Result<ScriptPlan, AllocError>
    ensures lines { IfOk result (λ o. length o.lines.items ≡ 1) }
{
    let mut lines = Vec::new(alloc);
    lines.push(read(alloc, 256, true))?;
    Ok(ScriptPlan {
        id: 1,
        qos: 0,
        prot: 0,
        lines,
    })
}

/// Some of the 64 packets that answer a read of 256 words, each with bytes of its own.
fn long_answers(alloc: Global, from: u8, to: u8) -> Result<Vec<Packet>, AllocError>
    requires to { to ≤ 64 }
{
    let mut answers = Vec::new(alloc);
    for part in from..to {
        answers.push(bytes(u64::from(part) * 32, 0, part))?;
    }
    Ok(answers)
}

/// The 2,048 bytes of these packets.
fn long_body(alloc: Global) -> Result<Vec<u8>, AllocError> {
    let mut body = Vec::new(alloc);
    for part in 0..64u8 {
        body.extend_from_slice(&[part; 32])?;
    }
    Ok(body)
}

const WAITING: TxnState = TxnState::Waiting;

const LOST: TxnState = TxnState::Answered { code: Code::NetErr };

#[test]
fn answers_come_in_any_order(rt: HostRuntime) -> Result<(), Fail> {
    let alloc = rt.alloc();
    let script_plan = script_plan(alloc)?;
    let mut table = TransactionTable::new(alloc, &script_plan)?;
    assert_eq!(rt;
        states(&table, &script_plan, 0),
        [WAITING, WAITING, TxnState::Posted, WAITING]
    );
    // the second half of the read before the first, and each of them twice: the first counts
    let late = [
        bytes(32, 2, 5),
        bytes(32, 3, 6),
        bytes(0, 0, 4),
        bytes(0, 3, 9),
    ];
    take_all(&mut table, &script_plan, &late);
    let refused = TxnState::Answered { code: Code::DevErr };
    assert_eq!(rt;
        states(&table, &script_plan, 0),
        [refused, WAITING, TxnState::Posted, WAITING]
    );
    let mut body = [4; 64];
    body[32..].copy_from_slice(&[5; 32]);
    assert_eq!(rt; table.body(&script_plan, 0, 0), body.as_slice());
    assert_eq!(rt; table.body(&script_plan, 0, 1).len(), 0);
    Ok(())
}

#[test]
fn other_words_are_dropped(rt: HostRuntime) -> Result<(), Fail> {
    let alloc = rt.alloc();
    let script_plan = script_plan(alloc)?;
    let mut table = TransactionTable::new(alloc, &script_plan)?;
    let strays = [
        // of another opcode
        written(0, 1),
        bytes(2048, 1, 1),
        // the posted write, the read that is aimed at no device, and what nobody asked for
        written(4096, 1),
        bytes(6144, 1, 1),
        bytes(8192, 1, 1),
        bytes(64, 1, 1),
        // of another size
        shorter(2048),
    ];
    take_all(&mut table, &script_plan, &strays);
    assert_eq!(rt;
        states(&table, &script_plan, 0),
        [WAITING, WAITING, TxnState::Posted, WAITING]
    );
    let write = [written(2048, 1)];
    take_all(&mut table, &script_plan, &write);
    let answered = TxnState::Answered { code: Code::ExOk };
    assert_eq!(rt;
        states(&table, &script_plan, 3),
        [WAITING, answered, TxnState::Posted, WAITING]
    );
    assert_eq!(rt;
        states(&table, &script_plan, 4),
        [WAITING, answered, TxnState::Posted, LOST]
    );
    assert_eq!(rt; table.body(&script_plan, 4, 3), [0; 16].as_slice());
    Ok(())
}

#[test]
fn long_reads_are_answered(rt: HostRuntime) -> Result<(), Fail> {
    let alloc = rt.alloc();
    let script_plan = long_script_plan(alloc)?;
    let mut table = TransactionTable::new(alloc, &script_plan)?;
    let later = long_answers(alloc, 1, 64)?;
    take_all(&mut table, &script_plan, &later);
    assert_eq!(rt; table.state(&script_plan, 1, 0), WAITING);
    assert_eq!(rt; table.body(&script_plan, 1, 0).len(), 0);
    let first = long_answers(alloc, 0, 1)?;
    take_all(&mut table, &script_plan, &first);
    let answered = TxnState::Answered { code: Code::Ok };
    assert_eq!(rt; table.state(&script_plan, 1, 0), answered);
    assert_eq!(rt;
        table.body(&script_plan, 1, 0),
        long_body(alloc)?.as_slice()
    );
    Ok(())
}
