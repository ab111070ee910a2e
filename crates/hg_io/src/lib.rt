//! Reading whole inputs and writing texts, over sources and sinks that count their faults.
//!
//! A [`Source`] gives bytes and a [`Sink`] takes them. Each counts its faults, and an answer of
//! [`Failed`] comes only where that count rose. What stands over memory ([`MemSource`],
//! [`MemSink`]) tells contracts its bytes; what stands over a stream or a file does not.
#![tactic(auto)]

mod answers;
mod any_sink;
mod any_source;
mod counts;
mod files;
mod mem_sink;
mod mem_source;
mod name;
mod pen;
mod place;
mod streams;
#[cfg(test)]
mod tests;
mod traits;
mod transfer;

pub use any_sink::AnySink;
pub use any_source::AnySource;
pub use files::{FileSink, FileSource};
pub use mem_sink::MemSink;
pub use mem_source::MemSource;
pub use name::Name;
pub use pen::{PEN_ROOM, Pen};
pub use place::Place;
pub use streams::{StdSink, StdSource};
pub use traits::{Failed, Sink, Source};
pub use transfer::{ReadEnd, put_all, read_all};
