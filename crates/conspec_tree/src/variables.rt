//! Variables by their names.

ghost use Rattle.std.specs.Prelude.{◌≡◌, ◌<◌, ◌^◌, length};
ghost use Rattle.conspec_tree.specs.Variables.{variable_from, is_variable};

use crate::types::Var;

/// The index of the variable with the name, and whether it is a bool.
pub fn variable_named(vars: &[Var], name: &[u8]) -> Option<(u32, bool)>
    requires { length vars.now < 2 ^ 32 }
    ensures { result ≡ variable_from 0 vars.now name.now }
{
    let mut index: u32 = 0;
    let mut left = vars;
    while let [first, others @ ..] = left {
        if first.name.as_slice() == name {
            return Some((index, first.is_bool));
        }
        index += 1;
        left = others;
    }
    None
}

/// Whether a variable has the name.
pub fn is_variable(vars: &[Var], name: &[u8]) -> bool
    ensures { result ≡ is_variable vars.now name.now }
{
    let mut left = vars;
    while let [first, others @ ..] = left {
        if first.name.as_slice() == name {
            return true;
        }
        left = others;
    }
    false
}
