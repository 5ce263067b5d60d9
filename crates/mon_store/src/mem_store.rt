//! Files in memory.

ghost use Rattle.std.specs.Prelude.{◌≡◌, ◌≤◌, ◌++◌, [], true, false, None, Some, List, ℕ, length};
ghost use Rattle.std.specs.Prelude.{IsSomeAnd, Contains, IfOk, OnOk, OnErr, IsErrOf, bytes_eq};
ghost use Rattle.std.specs.List.{position_from};
ghost use Rattle.std.specs.Option.{option_copied};
ghost use Rattle.mon_store.specs.Store.{Copies, written};
ghost use Rattle.mon_store.specs.MemStore.{told, with_file, with_written, names_differ, is_failing, passed, failed, Counted};

use crate::store::{Store, StoreFault};
use mon_base::{Bytes, List, NoMemory};
use std::alloc::Global;
use std::marker::Model;
use std::mem;

/// Files in memory. It tells them, and fails at the calls whose numbers it is given.
#[derive(Drop)]
pub struct MemStore {
    alloc: Global,
    files: List<(Bytes, Bytes)>,
    fail: List<u64>,
    calls: u64,
    faults: u64,
    last: Bytes,
}

impl Model for MemStore {
    ghost use Rattle.mon_store.specs.MemStore.{StoreState};

    ghost Value = { StoreState };

    ghost view = { λ s. record {
      files = s.files;
      fail = s.fail;
      calls = s.calls;
      faults = s.faults;
      last = s.last;
    } };
}

impl MemStore {
    /// A store with these files, each a name and its bytes, which fails at the calls of [`Store`] whose numbers, counted
    /// from 0, stand in `fail`. No name stands twice.
    pub fn new(files: List<(Bytes, Bytes)>, fail: List<u64>) -> MemStore
        requires { names_differ files ≡ true }
        ensures state { result ≡ record { files = files; fail = fail; calls = 0; faults = 0; last = [] } }
        ensures told { (name bytes : List ℕ) → Contains files (name, bytes) → told result.files name ≡ Some bytes }
    {
        let fail = fail.into_vec();
        let alloc = *fail.allocator();
        MemStore {
            alloc,
            files,
            fail: List::from_vec(fail),
            calls: 0,
            faults: 0,
            last: Bytes::new(alloc),
        }
    }

    /// The files as they are now, each a name and its bytes.
    pub fn files(&self) -> &List<(Bytes, Bytes)>
        ensures { result.now ≡ self.now.files }
    {
        &self.files
    }

    /// Begins a call with this name, which fails here if its number is one of those given.
    fn begin(&mut self, name: &Bytes) -> Result<(), StoreFault>
        ensures ok { OnOk result ((self.new ≡ self.old) × (is_failing self.old ≡ false)) }
        ensures failed { IsErrOf result StoreFault.Failed →
            (self.new ≡ failed self.old name.now) × (is_failing self.old ≡ true) }
        ensures memory { IsErrOf result StoreFault.Memory → self.new ≡ self.old }
        ensures absent { IsErrOf result StoreFault.Absent → ⊥ }
        ensures faults { self.old.faults ≤ self.new.faults }
    {
        if self.fail.as_slice().contains(&self.calls) {
            self.last = name.copy(self.alloc)?;
            self.faults = self.faults.saturating_add(1);
            self.calls = self.calls.saturating_add(1);
            return Err(StoreFault::Failed);
        }
        Ok(())
    }

    /// Counts a call that does not fail.
    fn pass(&mut self)
        ensures { self.new ≡ passed self.old }
    {
        self.calls = self.calls.saturating_add(1);
    }
}

/// Whether no name stands twice in these files.
pub fn names_differ(files: &[(Bytes, Bytes)]) -> bool
    ensures { result ≡ names_differ files.now }
{
    let mut left = files;
    while let [file, rest @ ..] = left {
        if bytes_of(rest, &file.0).is_some() {
            return false;
        }
        left = rest;
    }
    true
}

/// The bytes of the first file of this name.
fn bytes_of<'a>(files: &'a [(Bytes, Bytes)], name: &Bytes) -> Option<&'a Bytes>
    ensures { option_copied result ≡ told files.now name.now }
{
    let mut left = files;
    while let [file, rest @ ..] = left {
        if file.0 == *name {
            return Some(&file.1);
        }
        left = rest;
    }
    None
}

/// Copies what fits of the bytes from this place on to the front of the buffer, and gives the number of bytes.
fn copy_part(bytes: &[u8], at: u64, into: &mut [u8]) -> usize
    ensures fits { result ≤ length into.new }
    ensures same { Copies bytes.now at result into.new }
{
    if at >= bytes.len() as u64 {
        return 0;
    }
    let rest = &bytes[at as usize..];
    let count = into.len().min(rest.len());
    into[..count].copy_from_slice(&rest[..count]);
    count
}

/// The place of the first file of this name.
fn place_of(files: &[(Bytes, Bytes)], name: &Bytes) -> Option<usize>
    ensures { result ≡ position_from (λ file. bytes_eq file.0 name.now) 0 files.now }
{
    files.iter().position(|file| file.0 == *name)
}

/// Puts these bytes in the place of the first file of this name, or else after the others.
fn put_file(files: &mut Vec<(Bytes, Bytes)>, name: Bytes, bytes: Bytes) -> Result<(), NoMemory>
    ensures ok { OnOk result (files.new.items ≡ with_file files.old.items name bytes) }
    ensures err { OnErr result (files.new.items ≡ files.old.items) }
{
    match place_of(files, &name) {
        Some(at) => files[at] = (name, bytes),
        None => files.push((name, bytes))?,
    }
    Ok(())
}

/// The same in a list. On refusal the files are as they were.
fn put_listed(
    alloc: Global,
    files: &mut List<(Bytes, Bytes)>,
    name: &Bytes,
    bytes: &[u8],
) -> Result<(), NoMemory>
    ensures ok { OnOk result (files.new ≡ with_file files.old name.now bytes.now) }
    ensures err { OnErr result (files.new ≡ files.old) }
{
    let name = name.copy(alloc)?;
    let bytes = Bytes::from_slice(alloc, bytes)?;
    let mut items = mem::replace(files, List::new(alloc)).into_vec();
    let outcome = put_file(&mut items, name, bytes);
    *files = List::from_vec(items);
    outcome
}

impl Store for MemStore {
    ghost files = { λ s. Some (told s.files) };

    ghost faults = { λ s. s.faults };

    ghost last = { λ s. s.last };

    fn size(&mut self, name: &Bytes) -> Result<u64, StoreFault>
        ensures counted { Counted result self.old self.old self.new name.now }
        ensures ok { IfOk result (λ n. IsSomeAnd (told self.old.files name.now) (λ bytes. n ≡ length bytes)) }
        ensures absent { IsErrOf result StoreFault.Absent → told self.old.files name.now ≡ None }
        ensures files { self.new.files ≡ self.old.files }
        ensures faults { self.old.faults ≤ self.new.faults }
    {
        self.begin(name)?;
        self.pass();
        let bytes = bytes_of(self.files.as_slice(), name).ok_or(StoreFault::Absent)?;
        Ok(bytes.len() as u64)
    }

    fn read(&mut self, name: &Bytes, at: u64, into: &mut [u8]) -> Result<usize, StoreFault>
        ensures counted { Counted result self.old self.old self.new name.now }
        ensures fits { IfOk result (λ n. n ≤ length into.new) }
        ensures ok { IfOk result (λ n. IsSomeAnd (told self.old.files name.now) (λ bytes. Copies bytes at n into.new)) }
        ensures absent { IsErrOf result StoreFault.Absent → told self.old.files name.now ≡ None }
        ensures files { self.new.files ≡ self.old.files }
        ensures faults { self.old.faults ≤ self.new.faults }
    {
        self.begin(name)?;
        self.pass();
        let bytes = bytes_of(self.files.as_slice(), name).ok_or(StoreFault::Absent)?;
        Ok(copy_part(bytes.as_slice(), at, into))
    }

    fn write(&mut self, name: &Bytes, bytes: &[u8]) -> Result<(), StoreFault>
        ensures counted { Counted result self.old (with_written self.old name.now bytes.now) self.new name.now }
        ensures ok { OnOk result (Some (told self.new.files) ≡ written (Some (told self.old.files)) name.now bytes.now) }
        ensures refused { OnErr result (self.new.files ≡ self.old.files) }
        ensures present { IsErrOf result StoreFault.Absent → ⊥ }
        ensures faults { self.old.faults ≤ self.new.faults }
    {
        self.begin(name)?;
        put_listed(self.alloc, &mut self.files, name, bytes)?;
        self.pass();
        Ok(())
    }
}
