//! Packets, as they go over a link.

ghost use Rattle.std.specs.Prelude.{◌≡◌, ◌≤◌, ◌+◌, ◌-◌, ◌%◌, ◌^◌, drop, length, replicate};
ghost use Rattle.sb_packet.specs.Spans.{carried_of, span_of};

use sb_word::Cmd;

/// A request or an answer: after UMI, in this project's profile.
///
/// A packet speaks of at most 32 bytes. They lie at `dst` for a request and at `src` for an answer; the other
/// address says where the answer goes, or whence it comes.
#[derive(Clone, Copy, Debug, PartialEq, Eq)]
pub struct Packet {
    pub cmd: Cmd,
    /// Where the packet goes: a multiple of the word.
    pub dst: u64,
    /// Where it comes from: a multiple of the word.
    pub src: u64,
    /// The bytes that it carries, at the front, and zeros behind them.
    pub body: [u8; 32],
    pub ghost whole: { length body ≡ 32 },
    pub ghost fits: { span_of cmd ≤ 32 },
    pub ghost dst_aligned: { dst % 2 ^ cmd.size ≡ 0 },
    pub ghost src_aligned: { src % 2 ^ cmd.size ≡ 0 },
    pub ghost dst_in_range: { dst + span_of cmd ≤ 2 ^ 56 },
    pub ghost src_in_range: { src + span_of cmd ≤ 2 ^ 56 },
    pub ghost padding: { drop (carried_of cmd) body ≡ replicate (32 - carried_of cmd) 0 },
}
