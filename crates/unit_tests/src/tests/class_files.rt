//! Copies of class files, and how faults are printed. What is read of class files, and what is wrong with others, is told in
//! tests/bytes, through the built program.

mod known;

use crate::bytes_of;
use class_codec::{ClassFault, ClassFile, decode, encode};
use std::alloc::Global;
use std::test::*;

/// Each fault, and how it is printed.
static PRINTED: [(ClassFault, &str); 8] = [
    (ClassFault::Magic, "no class file"),
    (
        ClassFault::Version { major: 50 },
        "class file of version 50",
    ),
    (ClassFault::Short { at: 119 }, "cut short at 119"),
    (ClassFault::Tail { at: 121 }, "left over from 121"),
    (ClassFault::Tag { at: 10, tag: 2 }, "tag 2 at 10"),
    (ClassFault::Index { at: 82 }, "wrong index at 82"),
    (
        ClassFault::TooLong { len: 1_048_577 },
        "1048577 bytes are too long",
    ),
    (ClassFault::Memory, "out of memory"),
];

/// Whether the file is written as the bytes.
fn is_written_as(alloc: Global, file: &ClassFile, bytes: &[u8]) -> bool {
    match encode(alloc, file) {
        Ok(again) => again.as_slice() == bytes,
        Err(_) => false,
    }
}

/// Whether a copy of the file is written as the bytes.
fn is_copied_as(alloc: Global, file: &ClassFile, bytes: &[u8]) -> bool {
    match file.copy(alloc) {
        Ok(copy) => is_written_as(alloc, &copy, bytes),
        Err(_) => false,
    }
}

/// Whether the bytes are a class file, a copy of which is written as they are.
fn are_copied(alloc: Global, bytes: &[u8]) -> bool {
    match decode(alloc, bytes) {
        Ok(file) => is_copied_as(alloc, &file, bytes),
        Err(_) => false,
    }
}

#[test]
fn known_files_are_copied(rt: HostRuntime) -> Result<(), Fail> {
    let alloc = rt.alloc();
    let all: [&[&str]; 6] = [
        &known::SMALL,
        &known::WIDE,
        &known::COUNTER,
        &known::SHAPE,
        &known::WORDS,
        &known::INNER,
    ];
    for lines in &all {
        let bytes = bytes_of(alloc, lines)?;
        assert!(rt; are_copied(alloc, &bytes));
    }
    Ok(())
}

#[test]
fn printed_faults(rt: HostRuntime) -> Result<(), Fail> {
    for (fault, text) in &PRINTED {
        let printed = format!(in rt.alloc(); "{fault}")?;
        assert!(rt; printed.as_str() == *text, "{text}");
    }
    Ok(())
}
