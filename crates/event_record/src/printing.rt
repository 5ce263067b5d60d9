//! Values and events as a record has them.

ghost use Rattle.std.specs.Prelude.{◌≡◌, ◌<◌, ◌++◌, OnOk, Ok};
ghost use Rattle.std.specs.List.{flat_map};
ghost use Rattle.api_listing.specs.declared.events.ApiValue.{ApiValue};
ghost use Rattle.event_record.specs.Again.{EventIsReadAgain, EventsAreReadAgain};
ghost use Rattle.event_record.specs.Printing.{
  HasNoBreak,
  IsValue,
  following,
  event_line,
  event_text,
  head_text,
  method_after,
  named_after,
  result_after,
  threadless_text,
  value_after,
};
ghost use Rattle.event_record.specs.Value.{hex, hex_byte, hex_digit, value_at, value_word};

use api_listing::{ApiValue, Event, ListedMethod, Listing};
use mon_base::{Bytes, NoMemory, push_count, push_number};

/// Appends a value as a word.
pub fn push_value(out: &mut Bytes, value: &ApiValue) -> Result<(), NoMemory>
    ensures { OnOk result (out.new ≡ out.old ++ value_word value.now) }
{
    match value {
        ApiValue::Int(n) => push_number(out, i64::from(*n)),
        ApiValue::Null => out.extend(b"null"),
        ApiValue::Text(bytes) => {
            out.extend(b"text:")?;
            push_hex(out, bytes.as_slice())
        }
        ApiValue::Obj { class, at } => {
            out.extend(b"obj:")?;
            out.extend(class.as_slice())?;
            out.push(b'@')?;
            push_count(out, u64::from(*at))
        }
        ApiValue::Class(class) => {
            out.extend(b"class:")?;
            out.extend(class.as_slice())
        }
    }
}

/// What is printed of a value is read as that value, and is one word of a line.
pub fn values_are_read_again()
    ensures again { (value : ApiValue) → IsValue value → value_at (value_word value) ≡ Ok value }
    ensures word { (value : ApiValue) → IsValue value → HasNoBreak (value_word value) }
{}

/// What is printed of events is read as these events, where no word breaks: a line by itself, and a record whole. The
/// listing has the method of each event at its index, and that is the index that is found under the method's class, name
/// and descriptor.
pub fn events_are_read_again()
    ensures line { EventIsReadAgain }
    ensures text { EventsAreReadAgain }
{}

/// Two digits for each byte, or `-` for none.
pub fn push_hex(out: &mut Bytes, bytes: &[u8]) -> Result<(), NoMemory>
    ensures { OnOk result (out.new ≡ out.old ++ hex bytes.now) }
{
    match bytes {
        [] => out.extend(b"-"),
        [_, ..] => push_bytes(out, bytes),
    }
}

fn push_bytes(out: &mut Bytes, bytes: &[u8]) -> Result<(), NoMemory>
    ensures { OnOk result (out.new ≡ out.old ++ flat_map hex_byte bytes.now) }
{
    for byte in bytes {
        push_byte(out, *byte)?;
    }
    Ok(())
}

fn push_byte(out: &mut Bytes, byte: u8) -> Result<(), NoMemory>
    ensures { OnOk result (out.new ≡ out.old ++ hex_byte byte) }
{
    out.push(hex_digit(byte / 16))?;
    out.push(hex_digit(byte % 16))
}

fn hex_digit(n: u8) -> u8
    requires { n < 16 }
    ensures { result ≡ hex_digit n }
{
    if n < 10 { 48 + n } else { 87 + n }
}

/// Appends the line of an event of a method of the listing, with its newline.
pub fn push_event(out: &mut Bytes, listing: &Listing, event: &Event) -> Result<(), NoMemory>
    ensures { OnOk result (out.new ≡ out.old ++ event_line listing.now.methods event.now) }
{
    push_text(out, listing.methods.as_slice(), event)?;
    out.extend(b"\n")
}

fn push_text(out: &mut Bytes, methods: &[ListedMethod], event: &Event) -> Result<(), NoMemory>
    ensures { OnOk result (out.new ≡ out.old ++ event_text methods.now event.now) }
{
    match event {
        Event::Call {
            thread,
            method,
            args,
        } => {
            push_head(out, b"call", *thread, methods, *method)?;
            push_values(out, args.as_slice())
        }
        Event::Return {
            thread,
            method,
            value,
        } => {
            push_head(out, b"return", *thread, methods, *method)?;
            push_result(out, value)
        }
        Event::Except { thread, method } => push_head(out, b"except", *thread, methods, *method),
    }
}

/// Appends an event of a method of the listing as its line has it, but without its thread.
pub fn push_threadless(out: &mut Bytes, listing: &Listing, event: &Event) -> Result<(), NoMemory>
    ensures { OnOk result (out.new ≡ out.old ++ threadless_text listing.now.methods event.now) }
{
    let methods = listing.methods.as_slice();
    match event {
        Event::Call { method, args, .. } => {
            out.extend(b"call")?;
            push_named(out, methods, *method)?;
            push_values(out, args.as_slice())
        }
        Event::Return { method, value, .. } => {
            out.extend(b"return")?;
            push_named(out, methods, *method)?;
            push_result(out, value)
        }
        Event::Except { method, .. } => {
            out.extend(b"except")?;
            push_named(out, methods, *method)
        }
    }
}

fn push_head(
    out: &mut Bytes,
    verb: &[u8],
    thread: u32,
    methods: &[ListedMethod],
    method: u32,
) -> Result<(), NoMemory>
    ensures { OnOk result (out.new ≡ out.old ++ head_text verb.now thread methods.now method) }
{
    out.extend(verb)?;
    out.push(b' ')?;
    push_count(out, u64::from(thread))?;
    push_named(out, methods, method)
}

fn push_named(out: &mut Bytes, methods: &[ListedMethod], method: u32) -> Result<(), NoMemory>
    ensures { OnOk result (out.new ≡ out.old ++ named_after methods.now method) }
{
    match methods.get(method as usize) {
        Some(method) => push_method(out, method),
        None => Ok(()),
    }
}

fn push_method(out: &mut Bytes, method: &ListedMethod) -> Result<(), NoMemory>
    ensures { OnOk result (out.new ≡ out.old ++ method_after method.now) }
{
    push_after(out, &method.id.class)?;
    push_after(out, &method.id.name)?;
    push_after(out, &method.id.desc)
}

fn push_after(out: &mut Bytes, word: &Bytes) -> Result<(), NoMemory>
    ensures { OnOk result (out.new ≡ out.old ++ following word.now) }
{
    out.push(b' ')?;
    out.extend(word.as_slice())
}

fn push_result(out: &mut Bytes, value: &Option<ApiValue>) -> Result<(), NoMemory>
    ensures { OnOk result (out.new ≡ out.old ++ result_after value.now) }
{
    match value {
        Some(value) => push_value_after(out, value),
        None => Ok(()),
    }
}

fn push_values(out: &mut Bytes, values: &[ApiValue]) -> Result<(), NoMemory>
    ensures { OnOk result (out.new ≡ out.old ++ flat_map value_after values.now) }
{
    for value in values {
        push_value_after(out, value)?;
    }
    Ok(())
}

fn push_value_after(out: &mut Bytes, value: &ApiValue) -> Result<(), NoMemory>
    ensures { OnOk result (out.new ≡ out.old ++ value_after value.now) }
{
    out.push(b' ')?;
    push_value(out, value)
}
