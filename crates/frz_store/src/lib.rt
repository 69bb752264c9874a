//! What lies outside the program, as three traits: a store of named files, a source of bytes and a
//! sink for bytes. Each trait has objects in memory, some of them with planned failures, and a real
//! object: over files, standard input and standard output.
#![tactic(auto)]

mod count;
mod disk;
mod fails;
mod growing_file;
mod mem_sink;
mod mem_source;
mod mem_store;
mod named_file;
mod outside;
mod remaining;
mod reserved;
mod shelf;
mod standard;
mod sure_store;
mod sure_streams;

pub use disk::DiskStore;
pub use fails::{Fail, FailOn};
pub use mem_sink::MemSink;
pub use mem_source::MemSource;
pub use mem_store::MemStore;
pub use outside::{Failed, Sink, Source, Store, StoreFault};
pub use standard::{InputSource, OutputSink};
pub use sure_store::SureStore;
pub use sure_streams::{SureSink, SureSource};
