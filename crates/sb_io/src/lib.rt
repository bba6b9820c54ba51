//! Where bytes come from and go to. Each source and sink counts its faults, so that a caller can say what a failure came of.
#![tactic(auto)]

mod byte_sink;
mod byte_source;
mod clean_sink;
mod clean_source;
mod output;
mod piece;
mod reader_source;
mod sink;
mod source;
mod writer_sink;

pub use byte_sink::ByteSink;
pub use byte_source::ByteSource;
pub use clean_sink::CleanSink;
pub use clean_source::CleanSource;
pub use output::{WriteFailed, write_all};
pub use reader_source::ReaderSource;
pub use sink::{Put, Sink};
pub use source::{Got, Source};
pub use writer_sink::WriterSink;
