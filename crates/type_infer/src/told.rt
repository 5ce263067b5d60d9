//! A frame as a certificate can tell it, and its locals, which several frames share.

ghost use Rattle.std.specs.Prelude.{◌≡◌, ◌≤◌, ◌<◌, ℕ, false, length, take, IfOk, IfSome, IsSome};
ghost use Rattle.std.specs.List.{AllByRecursion};
ghost use Rattle.cert_format.specs.Fits.{FitsType, FitsFrame, ends_with_top};
ghost use Rattle.cert_format.specs.declared.typing.VType.TheVariants.{Top};
ghost use Rattle.bytecode_model.specs.Makes.{type_at};

use bytecode_model::Method;
use cert_format::{FrameType, VType};
use mon_base::{List, NoMemory, SharedList};
use std::alloc::Global;
use std::marker::Model;

/// Locals as a certificate can tell them: the last is not Top. All who [share](Locals::share) them hold the same list in
/// memory.
#[derive(Drop)]
pub struct Locals {
    types: SharedList<VType>,
}

impl Model for Locals {
    ghost use Rattle.std.specs.Prelude.{◌≡◌, false, List};
    ghost use Rattle.std.specs.List.{AllByRecursion};
    ghost use Rattle.cert_format.specs.Fits.{FitsType, ends_with_top};
    ghost use Rattle.cert_format.specs.declared.typing.VType.{VType};

    ghost Value = { List VType };

    ghost view = { λ l. l.types };

    ghost invariant = { λ l. AllByRecursion FitsType l.types × (ends_with_top l.types ≡ false) };
}

/// A frame as a certificate can tell it: its last local is not Top.
#[derive(Drop)]
pub struct Told {
    frame: FrameType,
}

impl Model for Told {
    ghost use Rattle.cert_format.specs.declared.typing.FrameType.{FrameType};
    ghost use Rattle.cert_format.specs.Fits.{FitsFrame};

    ghost Value = { FrameType };

    ghost view = { λ t. t.frame };

    ghost invariant = { λ t. FitsFrame t.frame };
}

/// Each index in these types is a number of 32 bits.
fn read_types(types: &[VType])
    ensures { AllByRecursion FitsType types.now }
{
    let mut left = types;
    while let [first, rest @ ..] = left {
        if let VType::Uninit(at) = first {
            let _index = *at;
        }
        left = rest;
    }
}

/// How many of the types there are up to the last that is not Top.
fn count_told(types: &[VType]) -> usize
    ensures within { result ≤ length types.now }
    ensures last { ends_with_top (take result types.now) ≡ false }
    ensures following { (j : ℕ) → result ≤ j → type_at types.now j ≡ Top }
{
    let mut count: usize = 0;
    for (i, t) in types.iter().enumerate() {
        if !matches!(t, VType::Top) {
            count = i + 1;
        }
    }
    count
}

/// The types up to the last that is not Top.
fn trimmed(types: List<VType>) -> List<VType>
    ensures within { length result ≤ length types }
    ensures last { ends_with_top result ≡ false }
    ensures same { (j : ℕ) → type_at result j ≡ type_at types j }
{
    let count = count_told(types.as_slice());
    let mut kept = types.into_vec();
    kept.truncate(count);
    List::from_vec(kept)
}

impl Locals {
    /// Locals of these types.
    pub fn new(alloc: Global, types: List<VType>) -> Result<Locals, NoMemory>
        ensures within { IfOk result (λ locals. length locals ≤ length types) }
        ensures same { IfOk result (λ locals. (j : ℕ) → type_at locals j ≡ type_at types j) }
    {
        let types = trimmed(types);
        read_types(types.as_slice());
        let types = SharedList::new(alloc, types)?;
        Ok(Locals { types })
    }

    /// The same locals once more. It takes no memory; it is refused where more share them than can be counted.
    pub fn share(&self) -> Result<Locals, NoMemory>
        ensures { IfOk result (λ locals. locals ≡ self.now) }
    {
        let types = self.types.share()?;
        Ok(Locals { types })
    }

    /// The types as a slice.
    pub fn as_slice(&self) -> &[VType]
        ensures { result.now ≡ self.now }
    {
        self.types.as_slice()
    }
}

impl Told {
    /// The frame of these locals and operands. Where they are more than the method has, there is none: no frame that
    /// meets the rules has so many.
    pub fn new(method: &Method, locals: Locals, stack: List<VType>) -> Option<Told>
        ensures some { length locals ≤ method.now.max_locals → length stack ≤ method.now.max_stack → IsSome result }
        ensures within { IfSome result (λ told. length told.locals ≤ method.now.max_locals) }
        ensures locals { IfSome result (λ told. told.locals ≡ locals) }
        ensures stack { IfSome result (λ told. told.stack ≡ stack) }
    {
        let Locals { types } = locals;
        let most_locals = usize::from(method.max_locals);
        let most_operands = usize::from(method.max_stack);
        if types.len() > most_locals || stack.len() > most_operands {
            return None;
        }
        read_types(stack.as_slice());
        Some(Told {
            frame: FrameType {
                locals: types,
                stack,
            },
        })
    }

    /// The frame.
    pub fn frame(&self) -> &FrameType
        ensures { result.now ≡ self.now }
    {
        &self.frame
    }

    /// Its locals, which are not copied.
    pub fn locals(&self) -> Result<Locals, NoMemory>
        ensures { IfOk result (λ locals. locals ≡ self.now.locals) }
    {
        let types = self.frame.locals.share()?;
        Ok(Locals { types })
    }

    /// The frame.
    pub fn into_frame(self) -> FrameType
        ensures value { result ≡ self }
        ensures fits { FitsFrame result }
    {
        let Told { frame } = self;
        frame
    }
}
