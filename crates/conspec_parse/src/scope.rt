//! What names mean in a clause.

ghost use Rattle.std.specs.Prelude.{◌≡◌, ◌<◌, ◌^◌, length};
ghost use Rattle.conspec_parse.specs.Scope.{HasFewNames, argument_from, base_named};

use crate::signature::{Param, is_named};
use conspec_tree::{Base, Kind, Var, variable_named};
use mon_base::Bytes;
use std::marker::Model;

/// The names of a clause: the variables, the parameters that may be asked, and the result's name, where it has one,
/// with its kind.
#[derive(Drop)]
pub struct Names<'a> {
    pub vars: &'a [Var],
    pub args: &'a [Param],
    pub returned: &'a Option<Bytes>,
    pub kind: Kind,
}

impl<'a> Model for Names<'a> {
    ghost use Rattle.conspec_parse.specs.Scope.{Scope};

    ghost Value = { Scope };

    ghost view = { λ n. record { vars = n.vars.now; args = n.args.now; returned = n.returned.now; kind = n.kind } };
}

impl<'a> Names<'a> {
    /// What the name means, and its kind.
    pub fn base_named(&self, name: &[u8]) -> Option<(Base, Kind)>
        requires { HasFewNames self.now }
        ensures { result ≡ base_named self.now name.now }
    {
        if let Some((index, is_bool)) = variable_named(self.vars, name) {
            let kind = if is_bool { Kind::Bool } else { Kind::Int };
            return Some((Base::Var(index), kind));
        }
        if let Some(found) = argument_named(self.args, name) {
            return Some(found);
        }
        if is_named(self.returned, name) {
            Some((Base::Result, self.kind))
        } else {
            None
        }
    }
}

fn argument_named(args: &[Param], name: &[u8]) -> Option<(Base, Kind)>
    requires { length args.now < 2 ^ 32 }
    ensures { result ≡ argument_from 0 args.now name.now }
{
    let mut index: u32 = 0;
    let mut left = args;
    while let [first, others @ ..] = left {
        if is_named(&first.name, name) {
            return Some((Base::Arg(index), first.kind));
        }
        index += 1;
        left = others;
    }
    None
}
