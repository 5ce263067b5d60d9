//! What a policy says, as a tree.

use mon_base::{Bytes, List};

/// What an atom compares.
#[derive(Clone, Copy)]
pub enum Base {
    /// A state variable, by its index.
    Var(u32),
    /// An argument of the method, by its index from 0, the receiver not counted.
    Arg(u32),
    /// The result of the method.
    Result,
}

/// How an atom compares.
#[derive(Clone, Copy)]
pub enum Rel {
    Eq,
    Ne,
    Lt,
    Le,
    Gt,
    Ge,
}

/// A comparison of a base with a constant. Truth values are 1 and 0.
#[derive(Clone, Copy)]
pub struct Atom {
    pub base: Base,
    pub rel: Rel,
    pub value: i32,
}

/// What becomes of a state variable.
#[derive(Clone, Copy)]
pub enum Update {
    Set { var: u32, value: i32 },
    Add { var: u32, by: i32 },
}

/// Which events of a method a clause is for: its call, its return, or its exception.
#[derive(Clone, Copy)]
pub enum Phase {
    Before,
    After,
    Exceptional,
}

/// What a policy knows of a type. Classes and arrays are all `Object`.
#[derive(Clone, Copy)]
pub enum Kind {
    Int,
    Bool,
    Byte,
    Short,
    Char,
    Object,
}

/// A state variable, and what it is at first: of a bool 1 or 0.
#[derive(Drop)]
pub struct Var {
    pub name: Bytes,
    pub is_bool: bool,
    pub first: i32,
}

/// Some lists of atoms, and what is done where all atoms of one of them hold. No atoms always hold.
#[derive(Drop)]
pub struct Guard {
    pub conjs: List<List<Atom>>,
    pub updates: List<Update>,
}

/// What is asked and done at one kind of event of a method. `ELSE` is a last guard with one empty list.
#[derive(Drop)]
pub struct TreeClause {
    /// The index of the method in its listing.
    pub method: u32,
    pub phase: Phase,
    pub args: List<Kind>,
    /// `None` where the method gives nothing.
    pub result: Option<Kind>,
    pub guards: List<Guard>,
}

/// What a policy says.
#[derive(Drop)]
pub struct PolicyTree {
    /// The greatest value of an int variable, from 1 to 1,000,000,000.
    pub maxint: i32,
    pub vars: List<Var>,
    pub clauses: List<TreeClause>,
}
