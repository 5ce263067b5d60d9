//! The types of the instructions of a block, by their roles.

ghost use Rattle.std.specs.Prelude.{◌≡◌, ◌-◌, ◌∷◌, [], ◌++◌, IfOk, OnOk, codes, drop, map, replicate};
ghost use Rattle.api_listing.specs.BuiltIn.{throwable};
ghost use Rattle.cert_format.specs.declared.typing.VType.TheVariants.{Ref, Top};
ghost use Rattle.bytecode_model.specs.Makes.{below};
ghost use Rattle.bytecode_model.specs.Rules.{when_thrown};
ghost use Rattle.conspec_tree.specs.declared.types.Phase.TheVariants.{After, Exceptional};
ghost use Rattle.block_template.specs.Flow.{asking, keeps_result, updating};
ghost use Rattle.block_template.specs.Frames.{
  class_pushed,
  frame_at,
  kept_arguments,
  operand_type,
  padded,
  phase_frame,
  saved_locals,
  stop_pushed,
  types_before,
  with_pushed,
};
ghost use Rattle.woven_typing.specs.Pushed.{types_pushed};

use block_template::{MethodClauses, Operand, Role, asking, stack_before, updating};
use bytecode_model::own;
use cert_format::{FrameType, Name, VType, copied_types, put_types};
use conspec_tree::Phase;
use frame_types::{THROWABLE, split_top, when_thrown};
use mon_base::{List, NoMemory, SharedList};
use std::alloc::Global;
use std::marker::Model;

/// The class of the lock, while it stands on the stack.
const CLASS: &[u8] = b"java/lang/Class";

/// The names of the classes that blocks push, and of what they catch, which all frames share.
#[derive(Drop)]
pub struct Names {
    class: Name,
    thrown: Name,
}

impl Model for Names {
    ghost use Rattle.std.specs.Prelude.{◌≡◌, ◌∷◌, [], ℕ, List, codes};
    ghost use Rattle.api_listing.specs.BuiltIn.{throwable};

    ghost Value = { List (List ℕ) };

    ghost view = { λ n. n.class ∷ n.thrown ∷ [] };

    ghost invariant = { λ n. (n.class ≡ codes "java/lang/Class") × (n.thrown ≡ throwable) };
}

impl Names {
    /// The names.
    pub fn new(alloc: Global) -> Result<Names, NoMemory>
        ensures { IfOk result (λ names. names ≡ codes "java/lang/Class" ∷ throwable ∷ []) }
    {
        Ok(Names {
            class: Name::from_slice(alloc, CLASS)?,
            thrown: Name::from_slice(alloc, THROWABLE)?,
        })
    }

    fn class(&self) -> Result<VType, NoMemory>
        ensures { IfOk result (λ t. t ≡ Ref (codes "java/lang/Class")) }
    {
        Ok(VType::Ref(self.class.share()?))
    }

    fn thrown(&self) -> Result<VType, NoMemory>
        ensures { IfOk result (λ t. t ≡ Ref throwable) }
    {
        Ok(VType::Ref(self.thrown.share()?))
    }
}

// ---- what a block has pushed

/// What a block has pushed on the operands, but for a comparison or an update.
#[derive(Clone, Copy)]
pub enum Pushed {
    Nothing,
    /// The class of the lock.
    Class,
    Null,
    Number,
}

fn class_pushed(pushed: bool) -> Pushed
    ensures { types_pushed result ≡ class_pushed pushed }
{
    if pushed {
        Pushed::Class
    } else {
        Pushed::Nothing
    }
}

fn stop_pushed(done: u32) -> Pushed
    ensures { types_pushed result ≡ stop_pushed done }
{
    match done {
        0 => Pushed::Nothing,
        1 => Pushed::Number,
        2 => Pushed::Nothing,
        _ => Pushed::Null,
    }
}

/// What the verifier sees of an operand.
fn operand_type(operand: Operand) -> VType
    ensures { result ≡ operand_type operand }
{
    match operand {
        Operand::Base(_) => VType::Int,
        Operand::Number(_) => VType::Int,
        Operand::Sum(_, _) => VType::Int,
    }
}

fn put_operands(out: &mut List<VType>, operands: &[Operand]) -> Result<(), NoMemory>
    ensures { OnOk result (out.new ≡ out.old ++ map operand_type operands.now) }
{
    for operand in operands {
        out.push(operand_type(*operand))?;
    }
    Ok(())
}

/// How many operands that are.
fn count_pushed(pushed: Pushed) -> usize {
    match pushed {
        Pushed::Nothing => 0,
        Pushed::Class => 1,
        Pushed::Null => 1,
        Pushed::Number => 1,
    }
}

fn put_pushed(out: &mut List<VType>, names: &Names, pushed: Pushed) -> Result<(), NoMemory>
    ensures { OnOk result (out.new ≡ out.old ++ types_pushed pushed) }
{
    match pushed {
        Pushed::Nothing => Ok(()),
        Pushed::Class => out.push(names.class()?),
        Pushed::Null => out.push(VType::Null),
        Pushed::Number => out.push(VType::Int),
    }
}

// ---- what a block keeps

fn kept_arguments(clauses: &MethodClauses) -> usize
    ensures { result ≡ kept_arguments clauses.now }
{
    match clauses.before {
        Some(clause) => clause.args.len(),
        None => 0,
    }
}

fn keeps_result(clauses: &MethodClauses) -> bool
    ensures { result ≡ keeps_result clauses.now }
{
    match clauses.after {
        Some(clause) => clause.result.is_some(),
        None => false,
    }
}

// ---- lists of types

fn put_tops(out: &mut List<VType>, n: usize) -> Result<(), NoMemory>
    ensures { OnOk result (out.new ≡ out.old ++ replicate n Top) }
{
    let mut left = n;
    while left > 0 {
        out.push(VType::Top)?;
        left -= 1;
    }
    Ok(())
}

fn following(types: &[VType], n: usize) -> &[VType]
    ensures { result.now ≡ drop n types.now }
{
    if n <= types.len() { &types[n..] } else { &[] }
}

/// The client's locals up to where they end, in a list that takes so many more without being moved.
fn locals_padded(
    alloc: Global,
    base: u16,
    locals: &[VType],
    more: usize,
) -> Result<List<VType>, NoMemory>
    ensures { IfOk result (λ made. made ≡ padded base locals.now) }
{
    let tops = usize::from(base).saturating_sub(locals.len());
    let mut made = copied_types(alloc, locals, tops.saturating_add(more))?;
    put_tops(&mut made, tops)?;
    Ok(made)
}

/// Appends the locals as a handler finds them.
fn put_thrown(alloc: Global, out: &mut List<VType>, locals: &[VType]) -> Result<(), NoMemory>
    ensures { OnOk result (out.new ≡ out.old ++ map when_thrown locals.now) }
{
    for t in locals {
        let one = own(alloc, when_thrown(t))?;
        out.push(one)?;
    }
    Ok(())
}

/// The locals that a handler finds, up to where the client's end.
#[tactic(auto, using(crate::proofs::Caught::thrown_padded))]
fn locals_caught(alloc: Global, base: u16, locals: &[VType]) -> Result<List<VType>, NoMemory>
    ensures { IfOk result (λ made. made ≡ map when_thrown (padded base locals.now)) }
{
    let tops = usize::from(base).saturating_sub(locals.len());
    let mut made = List::with_room(alloc, locals.len().saturating_add(tops))?;
    put_thrown(alloc, &mut made, locals)?;
    put_tops(&mut made, tops)?;
    Ok(made)
}

/// What a handler finds on the stack, in a list that takes so many more without being moved.
fn stack_caught(alloc: Global, names: &Names, more: usize) -> Result<List<VType>, NoMemory>
    ensures { IfOk result (λ made. made ≡ Ref throwable ∷ []) }
{
    let mut stack = List::with_room(alloc, more.saturating_add(1))?;
    stack.push(names.thrown()?)?;
    Ok(stack)
}

/// The frame of these locals, and of a copy of these operands, which takes so many more without being moved.
fn typed_here(
    alloc: Global,
    locals: List<VType>,
    operands: &[VType],
    more: usize,
) -> Result<FrameType, NoMemory>
    ensures { IfOk result (λ made. made ≡ record { locals = locals; stack = operands.now }) }
{
    let locals = SharedList::new(alloc, locals)?;
    let stack = copied_types(alloc, operands, more)?;
    Ok(FrameType { locals, stack })
}

// ---- a call

/// What the types of a block are told of: the clauses of the method that is called, the types before the call and after
/// it, and where the client's locals end.
#[derive(Drop)]
pub struct CallTypes<'a> {
    pub names: &'a Names,
    pub clauses: MethodClauses<'a>,
    pub before: FrameType,
    pub after: FrameType,
    pub base: u16,
}

impl<'a> Model for CallTypes<'a> {
    ghost use Rattle.woven_typing.specs.Pushed.{CallTypes as Types};

    ghost Value = { Types };

    ghost view = { λ c. record {
      clauses = c.clauses;
      around = record { before = c.before; after = c.after; base = c.base };
    } };
}

impl<'a> CallTypes<'a> {
    /// The locals where so many arguments are not kept yet.
    fn saved_locals(&self, alloc: Global, left: usize) -> Result<List<VType>, NoMemory>
        ensures { IfOk result (λ made. made ≡ saved_locals self.now.clauses self.now.around left) }
    {
        let count = kept_arguments(&self.clauses);
        let (_, kept) = split_top(self.before.stack.as_slice(), count);
        let mut made = locals_padded(alloc, self.base, self.before.locals.as_slice(), count)?;
        put_tops(&mut made, left)?;
        put_types(&mut made, following(kept, left))?;
        Ok(made)
    }

    /// Where so many arguments are on the stack no more, and these are not kept yet. So many operands are pushed then.
    fn without(
        &self,
        alloc: Global,
        left: usize,
        taken: usize,
        more: usize,
    ) -> Result<FrameType, NoMemory>
        ensures { IfOk result (λ made. made ≡ record {
          locals = saved_locals self.now.clauses self.now.around left;
          stack = below taken self.now.around.before.stack;
        }) }
    {
        let (below, _) = split_top(self.before.stack.as_slice(), taken);
        let saved = self.saved_locals(alloc, left)?;
        typed_here(alloc, saved, below, more)
    }

    /// Where the result is kept, and is on the stack no more.
    fn after_call(&self, alloc: Global, more: usize) -> Result<FrameType, NoMemory>
        ensures { IfOk result (λ made. made ≡ phase_frame self.now.clauses self.now.around After) }
    {
        let count = if keeps_result(&self.clauses) { 1 } else { 0 };
        let (below, top) = split_top(self.after.stack.as_slice(), count);
        let mut locals = locals_padded(alloc, self.base, self.after.locals.as_slice(), count)?;
        put_types(&mut locals, top)?;
        typed_here(alloc, locals, below, more)
    }

    /// Where the call gave its result, or its block is left.
    fn given(&self, alloc: Global) -> Result<FrameType, NoMemory>
        ensures { IfOk result (λ made. made ≡ record {
          locals = padded self.now.around.base self.now.around.after.locals;
          stack = self.now.around.after.stack;
        }) }
    {
        let locals = locals_padded(alloc, self.base, self.after.locals.as_slice(), 0)?;
        typed_here(alloc, locals, self.after.stack.as_slice(), 0)
    }

    /// Where the call threw.
    fn thrown(&self, alloc: Global, more: usize) -> Result<FrameType, NoMemory>
        ensures { IfOk result (λ made. made ≡ phase_frame self.now.clauses self.now.around Exceptional) }
    {
        let locals = locals_caught(alloc, self.base, self.before.locals.as_slice())?;
        let locals = SharedList::new(alloc, locals)?;
        let stack = stack_caught(alloc, self.names, more)?;
        Ok(FrameType { locals, stack })
    }

    /// While a check of this phase is made. So many operands are pushed then.
    fn phase_frame(&self, alloc: Global, phase: Phase, more: usize) -> Result<FrameType, NoMemory>
        ensures { IfOk result (λ made. made ≡ phase_frame self.now.clauses self.now.around phase) }
    {
        match phase {
            Phase::Before => self.without(alloc, 0, kept_arguments(&self.clauses), more),
            Phase::After => self.after_call(alloc, more),
            Phase::Exceptional => self.thrown(alloc, more),
        }
    }

    /// While a check of this phase is made, where this is pushed.
    fn with_pushed(
        &self,
        alloc: Global,
        phase: Phase,
        pushed: Pushed,
    ) -> Result<FrameType, NoMemory>
        ensures { IfOk result (λ made. made
            ≡ with_pushed (phase_frame self.now.clauses self.now.around phase) (types_pushed pushed)) }
    {
        let FrameType { locals, stack } = self.phase_frame(alloc, phase, count_pushed(pushed))?;
        let mut stack = stack;
        put_pushed(&mut stack, self.names, pushed)?;
        Ok(FrameType { locals, stack })
    }

    /// While a check of this phase is made, with these operands.
    fn with_operands(
        &self,
        alloc: Global,
        phase: Phase,
        operands: &[Operand],
    ) -> Result<FrameType, NoMemory>
        ensures { IfOk result (λ made. made
            ≡ with_pushed (phase_frame self.now.clauses self.now.around phase) (map operand_type operands.now)) }
    {
        let FrameType { locals, stack } = self.phase_frame(alloc, phase, operands.len())?;
        let mut stack = stack;
        put_operands(&mut stack, operands)?;
        Ok(FrameType { locals, stack })
    }

    /// While an atom is compared, and so many steps of that are done.
    fn comparing(
        &self,
        alloc: Global,
        phase: Phase,
        branch: u32,
        atom: u32,
        done: u32,
    ) -> Result<FrameType, NoMemory>
        ensures { IfOk result (λ made. made ≡ with_pushed (phase_frame self.now.clauses self.now.around phase)
            (types_before (asking self.now.clauses phase branch atom) done)) }
    {
        let steps = asking(alloc, &self.clauses, phase, branch, atom)?;
        self.with_operands(alloc, phase, stack_before(steps.as_slice(), done))
    }

    /// While an update is made, and so many steps of that are done.
    fn writing(
        &self,
        alloc: Global,
        phase: Phase,
        branch: u32,
        update: u32,
        done: u32,
    ) -> Result<FrameType, NoMemory>
        ensures { IfOk result (λ made. made ≡ with_pushed (phase_frame self.now.clauses self.now.around phase)
            (types_before (updating self.now.clauses phase branch update) done)) }
    {
        let steps = updating(alloc, &self.clauses, phase, branch, update)?;
        self.with_operands(alloc, phase, stack_before(steps.as_slice(), done))
    }

    /// Where all arguments are kept, and stand on the stack.
    fn at_call(&self, alloc: Global) -> Result<FrameType, NoMemory>
        ensures { IfOk result (λ made. made ≡ record {
          locals = saved_locals self.now.clauses self.now.around 0;
          stack = self.now.around.before.stack;
        }) }
    {
        let saved = self.saved_locals(alloc, 0)?;
        typed_here(alloc, saved, self.before.stack.as_slice(), 0)
    }

    /// Where so many of the arguments are kept, or stand on the stack again.
    fn among(&self, alloc: Global, left: u32, loaded: u32) -> Result<FrameType, NoMemory>
        ensures { IfOk result (λ made. made ≡ record {
          locals = saved_locals self.now.clauses self.now.around left;
          stack = below (kept_arguments self.now.clauses - loaded) self.now.around.before.stack;
        }) }
    {
        let taken = kept_arguments(&self.clauses).saturating_sub(loaded as usize);
        self.without(alloc, left as usize, taken, 0)
    }

    /// The types before an instruction of this role, if it is reached.
    pub fn frame_at(&self, alloc: Global, role: Role) -> Result<Option<FrameType>, NoMemory>
        ensures { IfOk result (λ made. made ≡ frame_at self.now.clauses self.now.around role) }
    {
        let frame = match role {
            Role::Save { left } => self.among(alloc, left, left),
            Role::Lock { phase, pushed } => self.with_pushed(alloc, phase, class_pushed(pushed)),
            Role::Ask {
                phase,
                branch,
                atom,
                done,
            } => self.comparing(alloc, phase, branch, atom, done),
            Role::Update {
                phase,
                branch,
                update,
                done,
            } => self.writing(alloc, phase, branch, update, done),
            Role::Taken { phase, .. } => self.phase_frame(alloc, phase, 0),
            Role::Stop { phase, done } => self.with_pushed(alloc, phase, stop_pushed(done)),
            Role::Unlock { phase, pushed, .. } => {
                self.with_pushed(alloc, phase, class_pushed(pushed))
            }
            Role::Load { loaded, .. } => self.among(alloc, 0, loaded),
            Role::Call { .. } => self.at_call(alloc),
            Role::Keep { .. } => self.given(alloc),
            Role::Give => self.after_call(alloc, 0),
            Role::Leave => self.given(alloc),
            Role::Rethrow => self.thrown(alloc, 0),
            Role::Unreached => return Ok(None),
        };
        Ok(Some(frame?))
    }
}
