//! Where conspecj reads its inputs from and writes its outputs to.
//!
//! A [`Store`] holds files by name, a [`Sink`] takes a text. Both may fail at any call. A failure has a cause: a
//! count of faults rises in the call, and a store keeps the name of the call. Either may tell what it holds; then
//! each call says what it made of it. [`MemStore`] and [`MemSink`] stand in memory, tell what they hold, and fail at
//! the calls that they are given. [`DirStore`] and [`OutSink`] stand for real files and standard output.
//! [`read_file`] reads a whole file under a limit, [`write_all`] writes several files in their order.
#![tactic(auto)]

mod dir_store;
mod mem_sink;
mod mem_store;
mod out_sink;
mod outputs;
mod read;
mod sink;
mod store;

pub use dir_store::DirStore;
pub use mem_sink::MemSink;
pub use mem_store::{MemStore, names_differ};
pub use out_sink::OutSink;
pub use outputs::{Output, WriteFault, write_all};
pub use read::{ReadFault, read_file};
pub use sink::{Sink, SinkFault};
pub use store::{Store, StoreFault};
