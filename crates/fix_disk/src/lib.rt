//! The disk that every promise about crashes stands on, and the places that bytes come from and go
//! to (`Source`, `Sink`): each a trait with an exact meaning, with a version in memory and an
//! adapter to the real thing.
#![tactic(auto)]

mod contents;
mod disk;
mod failing;
mod file_disk;
mod file_source;
mod log;
mod memory_disk;
mod memory_files;
mod memory_sink;
mod room;
mod sink;
mod source;
mod stream_sink;
mod streams;
#[cfg(test)]
mod tests;

pub use disk::{Disk, DiskFailed};
pub use failing::Failing;
pub use file_disk::{FileDisk, FileRefusal};
pub use file_source::FileSource;
pub use memory_disk::MemoryDisk;
pub use memory_files::MemoryFiles;
pub use memory_sink::MemorySink;
pub use room::{put, put_bytes};
pub use sink::{Sink, SinkFailed};
pub use source::{Source, SourceFault};
pub use stream_sink::StreamSink;
pub use streams::write_out;
