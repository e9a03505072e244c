//! Sources and sinks of bytes: in memory, with calls that fail as planned, and over std's readers
//! and writers.
#![tactic(auto)]

mod calls;
mod mem_sink;
mod mem_source;
mod passed;
mod reader_source;
mod reading;
mod split;
mod streams;
mod writer_sink;
mod writing;

pub use mem_sink::MemSink;
pub use mem_source::MemSource;
pub use reader_source::ReaderSource;
pub use reading::{ReadError, read_all};
pub use split::split_texts;
pub use streams::{Failed, Sink, Source};
pub use writer_sink::WriterSink;
pub use writing::{WriteError, write_all};
