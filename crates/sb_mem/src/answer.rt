//! The packet that answers a request.

ghost use Rattle.std.specs.Prelude.{◌≡◌, ◌-◌, drop, replicate};
ghost use Rattle.sb_packet.specs.Memories.{code_number};
ghost use Rattle.sb_packet.specs.Spans.{carried_by, span_of};
ghost use Rattle.sb_mem.specs.AnswerPackets.{IsAnswerTo, answer_len as len_of_answer, answer_op as op_of_answer};

use sb_packet::{BODY_BYTES, Cmd, Code, Op, Packet};

fn answer_op(op: Op) -> Op
    ensures { result ≡ op_of_answer op }
{
    match op {
        Op::ReqWr => Op::RespWr,
        Op::ReqRd | Op::ReqWrPosted | Op::ReqAtomic | Op::RespRd | Op::RespWr => Op::RespRd,
    }
}

fn answer_len(op: Op, len: u8) -> u8
    ensures { result ≡ len_of_answer op len }
{
    match op {
        Op::ReqAtomic => 0,
        Op::ReqRd | Op::ReqWr | Op::ReqWrPosted | Op::RespRd | Op::RespWr => len,
    }
}

/// The answer to a request, with that code and body.
#[inline(always)]
pub fn answer(p: &Packet, code: Code, body: [u8; BODY_BYTES]) -> Packet
    requires { drop (carried_by (op_of_answer p.now.cmd.op) (span_of p.now.cmd)) body
        ≡ replicate (32 - carried_by (op_of_answer p.now.cmd.op) (span_of p.now.cmd)) 0 }
    ensures fields { IsAnswerTo p.now result }
    ensures code { result.cmd.tail ≡ code_number code }
    ensures body { result.body ≡ body }
{
    let cmd = Cmd {
        op: answer_op(p.cmd.op),
        size: p.cmd.size,
        len: answer_len(p.cmd.op, p.cmd.len),
        qos: p.cmd.qos,
        prot: p.cmd.prot,
        eom: p.cmd.eom,
        eof: p.cmd.eof,
        ex: p.cmd.ex,
        tail: code.number(),
        host: p.cmd.host,
    };
    Packet {
        cmd,
        dst: p.src,
        src: p.dst,
        body,
    }
}
