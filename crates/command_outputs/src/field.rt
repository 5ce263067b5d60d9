//! What stands in a line after its first word.

ghost use Rattle.std.specs.Prelude.{◌≡◌, ◌∷◌, ◌++◌, IfOk, OnOk};
ghost use Rattle.command_outputs.specs.Fields.{all_spaced, count, report, spaced, within, word};

use mon_base::{Bytes, List, NoMemory, push_count, push_number};
use std::alloc::Global;

/// What stands in a line after a space.
#[derive(Drop)]
pub enum Field {
    /// How many, or at which place.
    Count(u64),
    /// A number with its sign.
    Number(i64),
    /// A name, or another word.
    Name(Bytes),
}

/// What is wrong, by its number, with the fields that say where.
#[derive(Drop)]
pub struct Report {
    pub number: u32,
    pub fields: List<Field>,
}

impl Report {
    /// The number with these fields.
    pub fn new<const N: usize>(
        alloc: Global,
        number: u32,
        fields: [Field; N],
    ) -> Result<Report, NoMemory>
        ensures { IfOk result (λ r. r ≡ report number fields.entry) }
    {
        let fields = Vec::from_array(alloc, fields)?;
        Ok(Report {
            number,
            fields: List::from_vec(fields),
        })
    }

    /// This report told in another one, whose own fields stand in front of it.
    pub fn within<const N: usize>(
        self,
        alloc: Global,
        outer: u32,
        front: [Field; N],
    ) -> Result<Report, NoMemory>
        ensures { IfOk result (λ r. r ≡ within self outer front.entry) }
    {
        let Report { number, fields } = self;
        let mut whole = Vec::from_array(alloc, front)?;
        whole.push(Field::Count(u64::from(number)))?;
        whole.append(&mut fields.into_vec())?;
        Ok(Report {
            number: outer,
            fields: List::from_vec(whole),
        })
    }
}

/// Appends each field after a space.
pub(crate) fn push_fields(text: &mut Bytes, fields: &[Field]) -> Result<(), NoMemory>
    ensures { OnOk result (text.new ≡ text.old ++ all_spaced fields.now) }
{
    let mut rest = fields;
    while let [first, later @ ..] = rest {
        push_field(text, first)?;
        rest = later;
    }
    Ok(())
}

/// Appends a space and the field.
fn push_field(text: &mut Bytes, field: &Field) -> Result<(), NoMemory>
    ensures { OnOk result (text.new ≡ text.old ++ spaced field.now) }
{
    match field {
        Field::Count(n) => push_counted(text, *n),
        Field::Number(n) => {
            text.push(b' ')?;
            push_number(text, *n)
        }
        Field::Name(name) => push_word(text, name.as_slice()),
    }
}

/// Appends a space and a number that is not below zero.
pub(crate) fn push_counted(text: &mut Bytes, n: u64) -> Result<(), NoMemory>
    ensures { OnOk result (text.new ≡ text.old ++ count n) }
{
    text.push(b' ')?;
    push_count(text, n)
}

/// Appends a space and a name.
pub(crate) fn push_word(text: &mut Bytes, name: &[u8]) -> Result<(), NoMemory>
    ensures { OnOk result (text.new ≡ text.old ++ word name.now) }
{
    text.push(b' ')?;
    text.extend(name)
}
