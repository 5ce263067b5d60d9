//! The places of fields in objects, which are made once.

ghost use Rattle.std.specs.Prelude.{IfOk, filter, length, slice_get, take, ◌+◌, ◌≡◌};
ghost use Rattle.std.specs.Option.{option_map_or};
ghost use Rattle.bytecode_model.specs.declared.program.LinkedClass.{LinkedClass};
ghost use Rattle.guest_model.specs.Layout.{class_given, fields_of, is_in_objects};
ghost use Rattle.guest_model.specs.Ready.{IsReady};
ghost use Rattle.guest_tables.specs.Layout.{begins_of, counts_from, counts_of, own_count, places_of};

use crate::given::{class_at, class_given, given_index};
use crate::items::item_at;
use crate::layout::is_in_objects;
use bytecode_model::Program;
use class_codec::Member;
use mon_base::{List, NoMemory};
use std::alloc::Global;
use type_lattice::Indexed;

/// How many fields the objects of the superclass of each given class have; and of each field of each given class, and after the
/// last, how many of the fields before it are in objects.
#[derive(Drop)]
pub struct Places {
    pub begins: List<u32>,
    pub counts: List<List<u32>>,
}

/// Where the fields of the given classes are.
pub fn places_of(alloc: Global, program: &Indexed) -> Result<Places, NoMemory>
    requires { IsReady program.now }
    ensures { IfOk result (λ places. places ≡ places_of program.now) }
{
    let counts = counts_of(alloc, program.program())?;
    let begins = begins_of(alloc, program, &counts)?;
    Ok(Places { begins, counts })
}

/// Of each field, and after the last, how many of the fields before it are in objects.
fn counts_in(alloc: Global, fields: &[Member]) -> Result<List<u32>, NoMemory>
    ensures { IfOk result (λ counts. counts ≡ counts_from 0 fields.now) }
{
    let mut counts = List::new(alloc);
    let mut count = 0;
    let mut left = fields;
    while let [member, rest @ ..] = left {
        counts.push(count)?;
        if is_in_objects(member) {
            count = add(count, 1)?;
        }
        left = rest;
    }
    counts.push(count)?;
    Ok(counts)
}

/// How many of the fields before this one are in objects.
pub fn count_before(counts: &[u32], fields: &[Member], field: usize) -> u32
    requires { counts.now ≡ counts_from 0 fields.now }
    ensures { result ≡ length (filter is_in_objects (take field fields.now)) }
{
    let last = fields.len();
    if field < last {
        counts[field]
    } else {
        counts[last]
    }
}

/// The same of each given class.
fn counts_of(alloc: Global, program: &Program) -> Result<List<List<u32>>, NoMemory>
    ensures { IfOk result (λ counts. counts ≡ counts_of program.now) }
{
    let mut counts = List::new(alloc);
    for class in program.classes.as_slice() {
        counts.push(counts_in(alloc, class.file.fields.as_slice())?)?;
    }
    Ok(counts)
}

/// How many fields a class has of its own in objects: the count after the last field.
fn own_count(counts: &[u32], fields: &[Member]) -> u32
    requires { counts.now ≡ counts_from 0 fields.now }
    ensures { result ≡ length (filter is_in_objects fields.now) }
{
    let last = fields.len();
    counts[last]
}

/// The same of the given class with this index; 0 where there is none.
fn own_count_at(program: &Program, counts: &List<List<u32>>, class: u32) -> u32
    requires { counts.now ≡ counts_of program.now }
    ensures { result ≡ option_map_or (λ (c : LinkedClass). own_count c.file) (slice_get program.now.classes class) 0 }
{
    let Some(of) = class_at(program, class) else {
        return 0;
    };
    let Some(counts) = item_at(counts, class) else {
        return 0;
    };
    own_count(counts.as_slice(), of.file.fields.as_slice())
}

/// The same of the given class with the name.
fn own_count_of(program: &Indexed, counts: &List<List<u32>>, name: &[u8]) -> u32
    requires ready { IsReady program.now }
    requires counts { counts.now ≡ counts_of program.now }
    ensures { result ≡ option_map_or (λ (c : LinkedClass). own_count c.file) (class_given program.now name.now) 0 }
{
    match given_index(program, name) {
        Some(index) => own_count_at(program.program(), counts, index),
        None => 0,
    }
}

/// How many fields an object of the class has.
fn count_of(program: &Indexed, counts: &List<List<u32>>, name: &[u8]) -> Result<u32, NoMemory>
    requires ready { IsReady program.now }
    requires counts { counts.now ≡ counts_of program.now }
    ensures { IfOk result (λ count. count ≡ length (fields_of program.now name.now)) }
{
    let given = program.program().classes.len();
    let mut count = 0;
    let mut at = name;
    for _ in 0..given {
        let Some(class) = class_given(program, at) else {
            return Ok(count);
        };
        let own = own_count_of(program, counts, at);
        let more = add(count, own)?;
        count = more;
        at = class.parent.as_slice();
    }
    Ok(count)
}

/// How many fields the objects of the superclass of each given class have.
fn begins_of(
    alloc: Global,
    program: &Indexed,
    counts: &List<List<u32>>,
) -> Result<List<u32>, NoMemory>
    requires ready { IsReady program.now }
    requires counts { counts.now ≡ counts_of program.now }
    ensures { IfOk result (λ begins. begins ≡ begins_of program.now) }
{
    let mut begins = List::new(alloc);
    for class in program.program().classes.as_slice() {
        begins.push(count_of(program, counts, class.parent.as_slice())?)?;
    }
    Ok(begins)
}

/// The sum. No memory holds as many fields as a number of 32 bits does not count.
fn add(count: u32, more: u32) -> Result<u32, NoMemory>
    ensures { IfOk result (λ sum. sum ≡ count + more) }
{
    match count.checked_add(more) {
        Some(sum) => Ok(sum),
        None => Err(NoMemory),
    }
}
