//! What is printed, and its text.

ghost use Rattle.std.specs.Prelude.{◌≡◌, ◌∷◌, ◌++◌, [], IfOk, OnOk};
ghost use Rattle.command_outputs.specs.Lines.{line_text, text_of};

use crate::line::{Line, push_line};
use mon_base::{Bytes, NoMemory};
use std::alloc::Global;

/// What is printed.
#[derive(Drop)]
pub enum Reply {
    /// A line.
    Line(Line),
    /// A text that ends its lines itself.
    Text(Bytes),
}

/// The text of what is printed.
pub fn text_of(alloc: Global, reply: Reply) -> Result<Bytes, NoMemory>
    ensures { IfOk result (λ text. text ≡ text_of reply) }
{
    match reply {
        Reply::Line(line) => whole_line(alloc, &line),
        Reply::Text(text) => Ok(text),
    }
}

/// A line with its end.
fn whole_line(alloc: Global, line: &Line) -> Result<Bytes, NoMemory>
    ensures { IfOk result (λ text. text ≡ line_text line.now ++ 10 ∷ []) }
{
    let mut text = Bytes::new(alloc);
    push_line(&mut text, line)?;
    text.push(b'\n')?;
    Ok(text)
}
