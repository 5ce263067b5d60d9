//! A store and a sink in memory, which fail at each of their calls in turn. Real files and standard output are those of the built
//! program, in tests/commands.

use mon_base::{Bytes, List, NoMemory};
use mon_store::{
    MemSink, MemStore, Output, ReadFault, Sink, SinkFault, Store, StoreFault, WriteFault,
    names_differ, read_file, write_all,
};
use std::alloc::Global;
use std::test::Fail;

/// Each file's bytes after its name.
const FILES: [(&[u8], &[u8]); 2] = [(b"a", b"abc"), (b"long/name", b"0123456789")];

fn push_file(
    list: &mut List<(Bytes, Bytes)>,
    alloc: Global,
    name: &[u8],
    bytes: &[u8],
) -> Result<(), NoMemory> {
    let name = Bytes::from_slice(alloc, name)?;
    let bytes = Bytes::from_slice(alloc, bytes)?;
    list.push((name, bytes))
}

fn files_of(alloc: Global, files: &[(&[u8], &[u8])]) -> Result<List<(Bytes, Bytes)>, Fail> {
    let mut list = List::new(alloc);
    for (name, bytes) in files {
        push_file(&mut list, alloc, name, bytes)?;
    }
    Ok(list)
}

/// Whether these are the files of the store.
fn has_files(alloc: Global, store: &MemStore, files: &[(&[u8], &[u8])]) -> Result<bool, Fail> {
    let files = files_of(alloc, files)?;
    Ok(*store.files() == files)
}

fn numbers(alloc: Global, fail: &[u64]) -> Result<List<u64>, Fail> {
    Ok(List::from_vec(fail.to_vec(alloc)?))
}

/// The script that is run below: what each call answers where none fails.
const ANSWERS: [Result<u64, StoreFault>; 6] = [
    Ok(3),
    Ok(2),
    Ok(0),
    Ok(0),
    Ok(5),
    Err(StoreFault::Absent),
];

fn answers_of(
    store: &mut MemStore,
    a: &Bytes,
    b: &Bytes,
    none: &Bytes,
) -> [Result<u64, StoreFault>; 6] {
    let mut buffer = [0u8; 8];
    [
        store.size(a),
        store.read(a, 1, &mut buffer).map(|n| n as u64),
        store.write(a, b"in its place").map(|_| 0),
        store.write(b, b"a new").map(|_| 0),
        store.size(b),
        store.size(none),
    ]
}

fn run(alloc: Global, store: &mut MemStore) -> Result<[Result<u64, StoreFault>; 6], Fail> {
    let a = Bytes::from_slice(alloc, b"a")?;
    let b = Bytes::from_slice(alloc, b"b")?;
    let none = Bytes::from_slice(alloc, b"none")?;
    Ok(answers_of(store, &a, &b, &none))
}

/// A store of these files that fails at the calls of these numbers.
fn store_of(alloc: Global, files: &[(&[u8], &[u8])], fail: &[u64]) -> Result<MemStore, Fail> {
    let files = files_of(alloc, files)?;
    if names_differ(files.as_slice()) {
        Ok(MemStore::new(files, numbers(alloc, fail)?))
    } else {
        Err("the names differ".into())
    }
}

#[test]
fn a_store_fails_at_each_call_in_turn(rt: HostRuntime) -> Result<(), Fail> {
    for failing in 0..7u64 {
        assert!(rt; fails_at(rt.alloc(), failing)?, "where {failing} fails");
    }
    Ok(())
}

/// Whether the script gives its answers and leaves its files, the call of this number failing.
fn fails_at(alloc: Global, failing: u64) -> Result<bool, Fail> {
    let mut store = store_of(alloc, &FILES, &[failing])?;
    let answers = run(alloc, &mut store)?;
    Ok(are_the_answers(&answers, failing) && has_its_files(alloc, &store, failing)?)
}

/// Whether each call answers as where none fails, but the one of this number, and the size of a file that was not written.
fn are_the_answers(answers: &[Result<u64, StoreFault>; 6], failing: u64) -> bool {
    for (number, answer) in answers.iter().enumerate() {
        let wanted = if number as u64 == failing {
            Err(StoreFault::Failed)
        } else if number == 4 && failing == 3 {
            Err(StoreFault::Absent)
        } else {
            ANSWERS[number]
        };
        if *answer != wanted {
            return false;
        }
    }
    true
}

/// Whether the files of the store are those that stand then.
fn has_its_files(alloc: Global, store: &MemStore, failing: u64) -> Result<bool, Fail> {
    let written: &[u8] = if failing == 2 {
        b"abc"
    } else {
        b"in its place"
    };
    let files: [(&[u8], &[u8]); 3] = [(b"a", written), FILES[1], (b"b", b"a new")];
    let count = if failing == 3 { 2 } else { 3 };
    has_files(alloc, store, &files[..count])
}

/// A name, a limit, the calls that fail, and how many bytes are read.
static READS: [(&[u8], u64, &[u64], Result<usize, ReadFault>); 8] = [
    (b"a", 3, &[], Ok(3)),
    (b"a", 2, &[], Err(ReadFault::TooLong { len: 3 })),
    (b"none", 9, &[], Err(ReadFault::Absent)),
    (b"long", 9000, &[], Ok(9000)),
    (b"long", 8999, &[], Err(ReadFault::TooLong { len: 9000 })),
    (b"long", 9000, &[0], Err(ReadFault::Failed)),
    (b"long", 9000, &[2], Err(ReadFault::Failed)),
    (b"long", 9000, &[5], Ok(9000)),
];

#[test]
fn a_file_is_read_up_to_its_limit(rt: HostRuntime) -> Result<(), Fail> {
    for (name, limit, fail, wanted) in &READS {
        let answer = len_under(rt.alloc(), name, *limit, fail)?;
        assert!(rt; answer == *wanted, "{name:?} with the limit {limit}");
    }
    Ok(())
}

/// How many bytes are read of one of two files, in a store that fails at these calls.
fn len_under(
    alloc: Global,
    name: &[u8],
    limit: u64,
    fail: &[u64],
) -> Result<Result<usize, ReadFault>, Fail> {
    let long = [7u8; 9000];
    let mut store = store_of(alloc, &[(b"a", b"abc"), (b"long", &long)], fail)?;
    len_of(alloc, &mut store, name, limit)
}

/// How many bytes are read of the file under the limit.
fn len_of(
    alloc: Global,
    store: &mut MemStore,
    name: &[u8],
    limit: u64,
) -> Result<Result<usize, ReadFault>, Fail> {
    let name = Bytes::from_slice(alloc, name)?;
    match read_file(alloc, store, &name, limit) {
        Ok(bytes) => Ok(Ok(bytes.len())),
        Err(fault) => Ok(Err(fault)),
    }
}

/// Three files that are written in this order over these two.
const WRITTEN: [(&[u8], &[u8]); 3] = [(b"a", b"one"), (b"b", b"two"), (b"c", b"three")];

const BEFORE: [(&[u8], &[u8]); 2] = [(b"b", b"old"), (b"z", b"kept")];

fn output(alloc: Global, name: &[u8], bytes: &[u8]) -> Result<Output, NoMemory> {
    Ok(Output {
        name: Bytes::from_slice(alloc, name)?,
        bytes: Bytes::from_slice(alloc, bytes)?,
    })
}

fn outputs_of(alloc: Global, files: &[(&[u8], &[u8])]) -> Result<List<Output>, Fail> {
    let mut list = List::new(alloc);
    for (name, bytes) in files {
        list.push(output(alloc, name, bytes)?)?;
    }
    Ok(list)
}

#[test]
fn files_are_written_up_to_the_one_that_fails(rt: HostRuntime) -> Result<(), Fail> {
    let alloc = rt.alloc();
    let stand: [&[(&[u8], &[u8])]; 4] = [
        &BEFORE,
        &[(b"b", b"old"), (b"z", b"kept"), (b"a", b"one")],
        &[(b"b", b"two"), (b"z", b"kept"), (b"a", b"one")],
        &[
            (b"b", b"two"),
            (b"z", b"kept"),
            (b"a", b"one"),
            (b"c", b"three"),
        ],
    ];
    let outputs = outputs_of(alloc, &WRITTEN)?;
    for (failing, files) in stand.iter().enumerate() {
        let is_so = stand_so(alloc, outputs.as_slice(), failing, files)?;
        assert!(rt; is_so, "files where {failing} fails");
    }
    Ok(())
}

/// Whether writing fails at the output of this number, if there is one, and leaves these files.
fn stand_so(
    alloc: Global,
    outputs: &[Output],
    failing: usize,
    files: &[(&[u8], &[u8])],
) -> Result<bool, Fail> {
    let mut store = store_of(alloc, &BEFORE, &[failing as u64])?;
    let names = names_the_output(alloc, &mut store, outputs, failing);
    Ok(names && has_files(alloc, &store, files)?)
}

/// Whether writing names the output of this number, or tells that all are written where there is none.
fn names_the_output(
    alloc: Global,
    store: &mut MemStore,
    outputs: &[Output],
    failing: usize,
) -> bool {
    match write_all(alloc, store, outputs) {
        Ok(()) => failing >= outputs.len(),
        Err(WriteFault::Failed(name)) => {
            failing < outputs.len() && name == outputs[failing].name
        }
        Err(WriteFault::Memory) => false,
    }
}

#[test]
fn a_sink_takes_what_it_does_not_fail_at(rt: HostRuntime) -> Result<(), Fail> {
    let mut sink = MemSink::new(numbers(rt.alloc(), &[1])?);
    assert!(rt; sink.put(b"one ").is_ok());
    assert!(rt; sink.put(b"two ") == Err(SinkFault::Failed));
    assert!(rt; sink.put(b"three").is_ok());
    assert!(rt; sink.text().as_slice() == b"one three".as_slice());
    Ok(())
}
