//! The constants of a policy have 32 bits. Its types say so of each; here it is told of all.

ghost use Rattle.std.specs.Prelude.{FitsSigned};
ghost use Rattle.std.specs.Int.{w32};
ghost use Rattle.std.specs.List.{AllByRecursion};
ghost use Rattle.conspec_tree.specs.declared.types.Atom.{Atom as SpecAtom};
ghost use Rattle.block_template.specs.Good.{AreNumbers, HasNumbers};

use conspec_automaton::{Branch, Policy};
use conspec_tree::Atom;

/// The constants of its atoms have 32 bits.
pub fn numbers_fit(policy: &Policy)
    ensures { HasNumbers policy.now }
{
    let mut left = policy.clauses.as_slice();
    while let [clause, rest @ ..] = left {
        branches_fit(clause.branches.as_slice());
        left = rest;
    }
}

fn branches_fit(branches: &[Branch])
    ensures { AllByRecursion AreNumbers branches.now }
{
    let mut left = branches;
    while let [branch, rest @ ..] = left {
        atoms_fit(branch.atoms.as_slice());
        left = rest;
    }
}

fn atoms_fit(atoms: &[Atom])
    ensures { AllByRecursion (λ (a : SpecAtom). FitsSigned w32 a.value) atoms.now }
{
    let mut left = atoms;
    while let [atom, rest @ ..] = left {
        number_fits(atom.value);
        left = rest;
    }
}

fn number_fits(number: i32)
    ensures { FitsSigned w32 number }
{}
