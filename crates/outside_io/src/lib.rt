//! Files to read and sinks to write, in memory and of the outside.
//!
//! `MemFiles` and `MemSink` tell all their bytes. `RealFiles` and `RealSink` tell nothing of
//! content: what a real file holds, and what becomes of written bytes, is trusted. They keep the
//! counts of faults as every reader and sink does.
#![tactic(auto)]

mod entries;
mod memory_files;
mod memory_sink;
mod reader;
mod real_files;
mod real_sink;
mod script;
mod sink;

pub use entries::{Failed, Fake, FakeKind, FileEntry, Got, WriteFault};
pub use memory_files::MemFiles;
pub use memory_sink::MemSink;
pub use reader::FileReader;
pub use real_files::RealFiles;
pub use real_sink::RealSink;
pub use sink::{Sink, write_all};
