//! Tests of what no command shows: stores and sinks in memory, copies of class files, devices, and records that are written; and the bytes
//! that they begin with, as tests write them.
#![tactic(auto)]

mod bytes;

pub use bytes::bytes_of;

#[cfg(test)]
mod tests;
