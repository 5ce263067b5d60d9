//! The methods that are built in.

ghost use Rattle.std.specs.Prelude.{◌≡◌};
ghost use Rattle.guest_model.specs.Builtins.{builtin_at};

/// What a built-in method does. (docs/MACHINE.md has the row of each.)
#[derive(Clone, Copy)]
pub enum Builtin {
    /// Nothing but taking its operands: `<init>` of Object, of what can be thrown, and of a Thread without a target.
    Make,
    /// Keeps the target of a Thread: `<init>` with a Runnable.
    MakeOn,
    /// Begins a thread.
    Start,
    /// Runs what a Thread runs.
    Run,
    /// Waits for a thread.
    Join,
    /// Stops the program.
    Exit,
    /// Counts the characters of a text.
    Length,
}

/// What each built-in method does, row by row; those after the first nine make exceptions.
static BUILTINS: [Builtin; 37] = [
    Builtin::Make,
    Builtin::Make,
    Builtin::MakeOn,
    Builtin::Start,
    Builtin::Run,
    Builtin::Join,
    Builtin::Run,
    Builtin::Exit,
    Builtin::Length,
    Builtin::Make,
    Builtin::Make,
    Builtin::Make,
    Builtin::Make,
    Builtin::Make,
    Builtin::Make,
    Builtin::Make,
    Builtin::Make,
    Builtin::Make,
    Builtin::Make,
    Builtin::Make,
    Builtin::Make,
    Builtin::Make,
    Builtin::Make,
    Builtin::Make,
    Builtin::Make,
    Builtin::Make,
    Builtin::Make,
    Builtin::Make,
    Builtin::Make,
    Builtin::Make,
    Builtin::Make,
    Builtin::Make,
    Builtin::Make,
    Builtin::Make,
    Builtin::Make,
    Builtin::Make,
    Builtin::Make,
];

/// The built-in method with this index.
pub fn builtin_at(index: u32) -> Option<Builtin>
    ensures { result ≡ builtin_at index }
{
    match BUILTINS.as_slice().get(index as usize) {
        Some(builtin) => Some(*builtin),
        None => None,
    }
}
