//! What is read of files that a store tells.

ghost use Rattle.command_inputs.specs.Told.{ToldAreRead};

/// Where the store tells its files and has no fault, what is read of the files of a command is a function of them, want of memory
/// aside.
pub fn told_files_are_read()
    ensures { ToldAreRead }
{}
