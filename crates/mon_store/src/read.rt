//! A whole file under a limit.

ghost use Rattle.std.specs.Prelude.{◌≡◌, ◌⊎◌, ◌<◌, ◌≤◌, ◌+◌, ℕ, length, IfOk, IsErrOf};
ghost use Rattle.mon_store.specs.declared.read.ReadFault.TheVariants.{Memory};
ghost use Rattle.mon_store.specs.Store.{Rose, Caused, HasFile, OfFile, Lacks};
ghost use Rattle.mon_store.specs.Read.{fault_of, Answers, Asked, Begins};

use crate::store::{Store, StoreFault};
use mon_base::{Bytes, NoMemory};
use std::alloc::Global;

/// Why a file was not read.
#[derive(Clone, Copy, Debug, PartialEq, Eq)]
pub enum ReadFault {
    /// There is no file of this name.
    Absent,
    /// The store failed, and counted the fault.
    Failed,
    /// The file is longer than the limit. `len` is its size as the store gives it, or how much of it was read where
    /// it went on after its size, in bytes.
    TooLong { len: u64 },
    /// Memory ran out.
    Memory,
}

impl From<StoreFault> for ReadFault {
    ghost from_gives = { λ fault e. e ≡ fault_of fault };

    fn from(fault: StoreFault) -> ReadFault {
        match fault {
            StoreFault::Absent => ReadFault::Absent,
            StoreFault::Failed => ReadFault::Failed,
            StoreFault::Memory => ReadFault::Memory,
        }
    }
}

impl From<NoMemory> for ReadFault {
    ghost from_gives = { λ _ e. e ≡ Memory };

    fn from(_error: NoMemory) -> ReadFault {
        ReadFault::Memory
    }
}

/// How many bytes are asked of a store at once.
const PIECE: usize = 32_768;

/// Reads the named file whole: first its size, then pieces of at most 32,768 bytes up to its end or one byte past the
/// limit.
pub fn read_file<S: Store>(
    alloc: Global,
    store: &mut S,
    name: &Bytes,
    limit: u64,
) -> Result<Bytes, ReadFault>
    ensures ok { IfOk result (λ b. HasFile (S.files store.old) name.now (λ bytes. b ≡ bytes)) }
    ensures within { IfOk result (λ b. length b ≤ limit) }
    ensures files { S.files store.new ≡ S.files store.old }
    ensures faults { S.faults store.old ≤ S.faults store.new }
    ensures failed { IsErrOf result ReadFault.Failed →
        Caused (S.faults store.old) (S.faults store.new) (S.last store.new) name.now }
    ensures absent { IsErrOf result ReadFault.Absent →
        Caused (S.faults store.old) (S.faults store.new) (S.last store.new) name.now
        ⊎ Lacks (S.files store.old) name.now }
    ensures too_long { (len : ℕ) → IsErrOf result (ReadFault.TooLong len) →
        (limit < len) × HasFile (S.files store.old) name.now (λ bytes. len ≡ length bytes) }
    // A store that tells its files gives the one answer for this file, faults and want of memory aside.
    ensures exact { Answers (S.files store.old) name.now limit result
        (Rose (S.faults store.old) (S.faults store.new) ⊎ IsErrOf result ReadFault.Memory) }
{
    let size = store.size(name)?;
    if size > limit {
        return Err(ReadFault::TooLong { len: size });
    }
    read_to_end(alloc, store, name, limit)
}

/// Reads pieces up to the end of the file or one byte past the limit.
fn read_to_end<S: Store>(
    alloc: Global,
    store: &mut S,
    name: &Bytes,
    limit: u64,
) -> Result<Bytes, ReadFault>
    ensures ok { IfOk result (λ b. HasFile (S.files store.old) name.now (λ bytes. b ≡ bytes)) }
    ensures within { IfOk result (λ b. length b ≤ limit) }
    ensures asked { Asked (S.files store.old) (S.files store.new)
        (S.faults store.old) (S.faults store.new) (S.last store.new) name.now result }
    ensures too_long { (len : ℕ) → IsErrOf result (ReadFault.TooLong len) →
        (len ≡ limit + 1) × OfFile (S.files store.old) name.now (λ bytes. len ≤ length bytes) }
{
    let mut text = Bytes::new(alloc);
    while text.len() as u64 <= limit {
        let count = read_piece(store, name, limit, &mut text)?;
        if count == 0 {
            return Ok(text);
        }
    }
    Err(ReadFault::TooLong {
        len: text.len() as u64,
    })
}

/// Reads one piece after the bytes that were read, up to one byte past the limit, and gives its length.
fn read_piece<S: Store>(
    store: &mut S,
    name: &Bytes,
    limit: u64,
    text: &mut Bytes,
) -> Result<usize, ReadFault>
    requires { length text.old ≤ limit }
    ensures grows { IfOk result (λ n. length text.new ≡ length text.old + n) }
    ensures within { length text.new ≤ limit + 1 }
    ensures front { Begins (S.files store.old) name.now text.old →
        Begins (S.files store.old) name.now text.new }
    ensures end { IfOk result (λ n. n ≡ 0 → Begins (S.files store.old) name.now text.old →
        HasFile (S.files store.old) name.now (λ bytes. text.old ≡ bytes)) }
    ensures asked { Asked (S.files store.old) (S.files store.new)
        (S.faults store.old) (S.faults store.new) (S.last store.new) name.now result }
    ensures never_too_long { (len : ℕ) → IsErrOf result (ReadFault.TooLong len) → ⊥ }
{
    let mut buffer = [0u8; PIECE];
    let room = (limit - text.len() as u64).min(PIECE as u64 - 1) as usize + 1;
    let piece = &mut buffer[..room];
    let count = store.read(name, text.len() as u64, piece)?;
    text.extend(&piece[..count])?;
    Ok(count)
}
