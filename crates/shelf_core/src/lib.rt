//! The world outside a program, as two traits: a shelf of files and a sink for its output.
#![tactic(auto)]

mod copy;
mod disk_shelf;
mod failing;
mod file_error;
mod file_id;
mod file_limit;
mod mem_shelf;
mod mem_sink;
mod outside;
mod safe_shelf;
mod safe_sink;
mod std_sink;
mod stored_file;
mod stream;

pub use disk_shelf::DiskShelf;
pub use file_error::{FileError, FileFault, FileStop};
pub use file_limit::size_in;
pub use mem_shelf::MemShelf;
pub use mem_sink::MemSink;
pub use outside::{Shelf, ShelfStop, Sink};
pub use safe_shelf::SafeShelf;
pub use safe_sink::SafeSink;
pub use std_sink::StdSink;
pub use stream::Stream;
