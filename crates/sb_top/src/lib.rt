//! The top call of `sb`.
#![tactic(auto)]

mod bundle_command;
mod bundle_run;
mod check_command;
mod command;
mod evidence;
mod gen_command;
mod input;
mod refusal;
mod schedule;
mod solo_command;
mod status;

pub use command::top;
pub use sb_drive::FreeGate;
pub use sb_io::{ReaderSource, WriterSink};
pub use sb_link::{MeetFabric, SerialFabric};
pub use sb_packet::Journal;
pub use sb_ring::RingFabric;
pub use sb_solo::{
    outcomes_are_many, solo_journals_are_lawful, solo_packets_are_few,
    solo_results_are_the_journals,
};
pub use status::{
    DONE, OUT_OF_MEMORY, READ_FAILED, REFUSED, REJECTED, TOO_LONG, USAGE, WRITE_FAILED,
};
