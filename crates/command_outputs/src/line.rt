//! The kinds of lines that are printed.

ghost use Rattle.std.specs.Prelude.{◌≡◌, ◌++◌, OnOk};
ghost use Rattle.command_outputs.specs.declared.line.Line.TheVariants as lines;
ghost use Rattle.command_outputs.specs.Lines.{accepted_in, file_name, labelled, line_text};

use crate::field::{Field, Report, push_counted, push_fields, push_word};
use mon_base::{Bytes, List, NoMemory};

/// A line of one of the kinds that are printed.
#[derive(Drop)]
pub enum Line {
    /// `accepted MODE sites N`: the program is accepted in this mode, with so many sites.
    Accepted {
        mode: Bytes,
        sites: u64,
    },
    /// `inlined MODE sites N classes K`: the program was woven and is accepted so; so many class files were written.
    Inlined {
        mode: Bytes,
        sites: u64,
        classes: u64,
    },
    /// `generated classes N sites M bytes B`: so many class files were written, with so many sites and bytes in all.
    Generated {
        classes: u64,
        sites: u64,
        bytes: u64,
    },
    /// `loaded classes N sites M accepted MODE`: a program with so many class files and sites in all was made, woven and written,
    /// and is accepted in this mode.
    Loaded {
        classes: u64,
        sites: u64,
        mode: Bytes,
    },
    /// `accepted`: the events of a run obey the policy.
    Obeyed,
    /// `stopped INDEX`: they do, and the event of this index, which comes last, was stopped.
    Stopped {
        index: u64,
    },
    /// `free`: the events of a policy do not race.
    Free,
    /// `denied NUMBER FIELD..`: the answer is no.
    Denied(Report),
    /// `input NUMBER NAME FIELD..`: the file of this name is wrong; NAME is `-` where it is no single file.
    Input {
        name: Option<Bytes>,
        report: Report,
    },
    /// `overflow FIELD..`: a size does not fit.
    Overflow(List<Field>),
    /// `store NAME`: the store failed at the file of this name.
    Store(Bytes),
    /// `usage: conspecj COMMAND WORD..`: the words are no command's.
    Usage,
}

/// Appends the line without its end.
pub(crate) fn push_line(text: &mut Bytes, line: &Line) -> Result<(), NoMemory>
    ensures { OnOk result (text.new ≡ text.old ++ line_text line.now) }
{
    match line {
        Line::Accepted { mode, sites } => push_accepted(text, mode, *sites),
        Line::Inlined {
            mode,
            sites,
            classes,
        } => push_inlined(text, mode, *sites, *classes),
        Line::Generated {
            classes,
            sites,
            bytes,
        } => push_generated(text, *classes, *sites, *bytes),
        Line::Loaded {
            classes,
            sites,
            mode,
        } => push_loaded(text, *classes, *sites, mode),
        Line::Obeyed => text.extend(b"accepted"),
        Line::Stopped { index } => {
            text.extend(b"stopped")?;
            push_counted(text, *index)
        }
        Line::Free => text.extend(b"free"),
        Line::Denied(report) => {
            text.extend(b"denied")?;
            push_counted(text, u64::from(report.number))?;
            push_fields(text, report.fields.as_slice())
        }
        Line::Input { name, report } => push_input(text, name, report),
        Line::Overflow(sizes) => {
            text.extend(b"overflow")?;
            push_fields(text, sizes.as_slice())
        }
        Line::Store(name) => {
            text.extend(b"store")?;
            push_word(text, name.as_slice())
        }
        Line::Usage => text.extend(b"usage: conspecj COMMAND WORD.."),
    }
}

fn push_accepted(text: &mut Bytes, mode: &Bytes, sites: u64) -> Result<(), NoMemory>
    ensures { OnOk result (text.new ≡ text.old ++ line_text (lines.Accepted mode.now sites)) }
{
    text.extend(b"accepted")?;
    push_word(text, mode.as_slice())?;
    text.extend(b" sites")?;
    push_counted(text, sites)
}

fn push_inlined(text: &mut Bytes, mode: &Bytes, sites: u64, classes: u64) -> Result<(), NoMemory>
    ensures { OnOk result (text.new ≡ text.old ++ line_text (lines.Inlined mode.now sites classes)) }
{
    text.extend(b"inlined")?;
    push_word(text, mode.as_slice())?;
    text.extend(b" sites")?;
    push_counted(text, sites)?;
    text.extend(b" classes")?;
    push_counted(text, classes)
}

fn push_generated(text: &mut Bytes, classes: u64, sites: u64, bytes: u64) -> Result<(), NoMemory>
    ensures { OnOk result (text.new ≡ text.old ++ line_text (lines.Generated classes sites bytes)) }
{
    push_labelled(text, b"generated classes", classes)?;
    push_labelled(text, b" sites", sites)?;
    push_labelled(text, b" bytes", bytes)?;
    Ok(())
}

fn push_loaded(text: &mut Bytes, classes: u64, sites: u64, mode: &Bytes) -> Result<(), NoMemory>
    ensures { OnOk result (text.new ≡ text.old ++ line_text (lines.Loaded classes sites mode.now)) }
{
    push_labelled(text, b"loaded classes", classes)?;
    push_labelled(text, b" sites", sites)?;
    push_accepted_in(text, mode)?;
    Ok(())
}

fn push_accepted_in(text: &mut Bytes, mode: &Bytes) -> Result<(), NoMemory>
    ensures { OnOk result (text.new ≡ text.old ++ accepted_in mode.now) }
{
    text.extend(b" accepted")?;
    push_word(text, mode.as_slice())
}

/// Appends a word and a count.
fn push_labelled(text: &mut Bytes, label: &[u8], n: u64) -> Result<(), NoMemory>
    ensures { OnOk result (text.new ≡ text.old ++ labelled label.now n) }
{
    text.extend(label)?;
    push_counted(text, n)
}

fn push_input(text: &mut Bytes, name: &Option<Bytes>, report: &Report) -> Result<(), NoMemory>
    ensures { OnOk result (text.new ≡ text.old ++ line_text (lines.Input name.now report.now)) }
{
    text.extend(b"input")?;
    push_counted(text, u64::from(report.number))?;
    push_word(text, file_name(name))?;
    push_fields(text, report.fields.as_slice())
}

/// The name of a file, or `-` where there is none.
fn file_name(name: &Option<Bytes>) -> &[u8]
    ensures { result.now ≡ file_name name.now }
{
    match name {
        Some(name) => name.as_slice(),
        None => b"-",
    }
}
