//! Memory that is taken before the library is asked, so that its answer can be taken in any case.

ghost use Rattle.std.specs.Prelude.{None, OnOk, length, vec_capacity, vec_len, ◌≡◌, ◌≤◌};

use guest_heap::Thread;
use mon_base::{Bytes, NoMemory};
use std::alloc::Global;

/// Memory for a copy of some bytes.
#[derive(Drop)]
pub struct Spare {
    bytes: Vec<u8>,

    ghost empty: { vec_len bytes ≡ 0 },
}

impl Spare {
    /// No memory is taken.
    pub fn new(alloc: Global) -> Spare
        ensures { vec_len result.bytes ≡ 0 }
    {
        Spare {
            bytes: Vec::new(alloc),
        }
    }

    /// Takes memory for a copy of so many bytes. What is there stays.
    pub fn reserve(&mut self, count: usize) -> Result<(), NoMemory>
        ensures ok { OnOk result (count ≤ vec_capacity self.new.bytes) }
        ensures stays { vec_capacity self.old.bytes ≤ vec_capacity self.new.bytes }
    {
        self.bytes.reserve(count)?;
        Ok(())
    }

    /// A copy of the bytes, for which there is memory. Where that is more than the copy takes, other memory is used if there is some.
    pub fn copy(&mut self, alloc: Global, bytes: &[u8]) -> Bytes
        requires { length bytes.now ≤ vec_capacity self.old.bytes }
        ensures { result ≡ bytes.now }
    {
        if self.bytes.capacity() <= bytes.len() {
            return self.used(alloc, bytes);
        }
        match Bytes::from_slice(alloc, bytes) {
            Ok(copy) => copy,
            Err(NoMemory) => self.used(alloc, bytes),
        }
    }

    /// The copy in this very memory.
    fn used(&mut self, alloc: Global, bytes: &[u8]) -> Bytes
        requires { length bytes.now ≤ vec_capacity self.old.bytes }
        ensures { result ≡ bytes.now }
    {
        let mut copy = std::mem::replace(&mut self.bytes, Vec::new(alloc));
        copy.extend_from_slice(bytes).unwrap();
        Bytes::from_vec(copy)
    }
}

/// Memory for whatever an answer makes, beside the place of an object in the heap.
#[derive(Drop)]
pub struct Rooms {
    /// For the text or the name in a new object.
    pub object: Spare,
    /// For the text or the name in what the library sees.
    pub event: Spare,
    /// The thread once it rests, where it has no frame to return to.
    pub rested: Option<Thread>,
}

impl Rooms {
    /// No memory is taken.
    pub fn new(alloc: Global) -> Rooms
        ensures { result.rested ≡ None }
    {
        Rooms {
            object: Spare::new(alloc),
            event: Spare::new(alloc),
            rested: None,
        }
    }
}
