//! A device that prints.

ghost use Rattle.std.specs.Prelude.{◌≡◌, ◌≤◌, ◌++◌, None, IfOk, OnOk, IsErrOf};
ghost use Rattle.std.specs.Io.KnownBytes.{Appends};
ghost use Rattle.mon_store.specs.Store.{one_more};
ghost use Rattle.api_shelf.specs.Console.{console_text, first_text, value_text};
ghost use Rattle.api_shelf.specs.Plain.{plain_answer};

use crate::device::{ApiDevice, DeviceFault};
use crate::plain::plain_answer;
use api_listing::{ApiAnswer, ApiCall, ApiValue};
use mon_base::{Bytes, NoMemory, push_number};
use std::alloc::Global;
use std::io::Write;
use std::marker::Model;

/// A device that writes the text or the number that is passed to `print` and `println`, the latter with a newline after
/// it, and answers every call plainly. It keeps no log. Over standard error it is made of `rt.stderr()`.
#[derive(Drop)]
pub struct Console<W: Write + Drop> {
    alloc: Global,
    out: W,
    faults: u64,
}

impl<W: Write + Drop> Model for Console<W> {
    ghost use Rattle.api_shelf.specs.Console.{ConsoleState};

    ghost Value = { ConsoleState W };

    ghost view = { λ c. record { out = c.out; faults = c.faults } };
}

impl<W: Write + Drop> Console<W> {
    /// A console that writes to this writer. It takes no memory.
    pub fn new(alloc: Global, out: W) -> Console<W>
        ensures { result ≡ record { out = out; faults = 0 } }
    {
        Console {
            alloc,
            out,
            faults: 0,
        }
    }
}

/// What is written for this call.
fn console_text(alloc: Global, call: &ApiCall) -> Result<Bytes, NoMemory>
    ensures { IfOk result (λ text. text ≡ console_text call.now) }
{
    let mut text = Bytes::new(alloc);
    let name = call.method.name.as_slice();
    if name == b"print".as_slice() {
        push_first(&mut text, call.args.as_slice())?;
    } else if name == b"println".as_slice() {
        push_first(&mut text, call.args.as_slice())?;
        text.push(b'\n')?;
    }
    Ok(text)
}

fn push_first(text: &mut Bytes, args: &[ApiValue]) -> Result<(), NoMemory>
    ensures { OnOk result (text.new ≡ text.old ++ first_text args.now) }
{
    match args {
        [] => Ok(()),
        [first, ..] => push_value(text, first),
    }
}

fn push_value(text: &mut Bytes, value: &ApiValue) -> Result<(), NoMemory>
    ensures { OnOk result (text.new ≡ text.old ++ value_text value.now) }
{
    match value {
        ApiValue::Int(n) => push_number(text, i64::from(*n)),
        ApiValue::Text(bytes) => text.extend(bytes.as_slice()),
        ApiValue::Null | ApiValue::Obj { class: _, at: _ } | ApiValue::Class(_) => Ok(()),
    }
}

impl<W: Write + Drop> ApiDevice for Console<W> {
    ghost told = { λ _. None };

    ghost faults = { λ c. c.faults };

    /// Writes, and answers plainly. A console that failed may have written a front of the text; without memory nothing
    /// is written.
    fn answer(&mut self, call: &ApiCall) -> Result<ApiAnswer, DeviceFault>
        ensures written { OnOk result
            (Appends (W.contents self.old.out) (W.contents self.new.out) (console_text call.now)) }
        ensures plain { IfOk result (λ given. given ≡ plain_answer call.now) }
        ensures counted { OnOk result (self.new.faults ≡ self.old.faults) }
        ensures failed { IsErrOf result DeviceFault.Failed → self.new.faults ≡ one_more self.old.faults }
        ensures faults { self.old.faults ≤ self.new.faults }
        ensures memory { IsErrOf result DeviceFault.Memory → self.new ≡ self.old }
    {
        let text = console_text(self.alloc, call)?;
        if self.out.write_all(text.as_slice()).is_err() {
            self.faults = self.faults.saturating_add(1);
            return Err(DeviceFault::Failed);
        }
        Ok(plain_answer(self.alloc, call))
    }

    fn fault_count(&self) -> u64 {
        self.faults
    }
}
