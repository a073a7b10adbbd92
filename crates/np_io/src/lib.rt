//! Streams and disks: a program's input and output, and a disk with one file.
//!
//! Sources and sinks of bytes are read and written as a whole. `Source` and `Sink` are the traits.
//! `MemSource` and `MemSink` keep their bytes in memory and fail at planned calls; `StdSource` and
//! `StdSink` are adapters over the real streams, and the trusted edge. Read `specs/Memory`
//! and `specs/Ends` first, then `source`, `sink`, `whole`.
//!
//! A stream counts its faults, and a fault is answered only if that count rose in the call. The
//! stream then has its bytes as before: none is lost and none is added. A source is at its end only
//! if a read returned no byte, and a sink is finished only by `finish`, whatever the stream is.
//!
//! Of a disk contracts say what reads give, what a crash leaves, and what each call does to both.
//! `Disk` is the trait. `MemDisk` keeps its file in memory, fails from a planned call on, and makes
//! images that a crash may leave. `FileDisk` is an adapter over a real file, and the trusted edge.
//! Read `specs/Disk` first, then `disk` and `whole_disk`, then `specs/DiskCalls` and `mem_disk`.
//!
//! A disk counts its faults, and a fault is answered only if that count rose in the call. A failed
//! write may have changed bytes where it wrote, and no others. After a sync that succeeded a crash
//! leaves exactly what reads give, until the next write.
#![tactic(auto)]

mod calls;
mod disk;
mod disk_calls;
mod draws;
mod file_disk;
mod mem_disk;
mod mem_sink;
mod mem_source;
mod plan;
mod sink;
mod source;
mod std_sink;
mod std_source;
mod whole;
mod whole_disk;

pub use disk::{Disk, DiskFailed};
pub use file_disk::FileDisk;
pub use mem_disk::MemDisk;
pub use mem_sink::MemSink;
pub use mem_source::MemSource;
pub use sink::{Sink, WriteFailed};
pub use source::{ReadFailed, Source};
pub use std_sink::StdSink;
pub use std_source::StdSource;
pub use whole::{ReadAll, read_all, write_all};
pub use whole_disk::{read_full, write_through};
