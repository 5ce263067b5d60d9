//! The types of what locals and stack places hold before each instruction.

ghost use Rattle.std.specs.Prelude.{◌≡◌, IfOk};

use crate::name::Name;
use mon_base::{List, NoMemory, SharedList};

/// What a local or a stack place holds, as the verifier sees it. (The Java Virtual Machine Specification, section
/// 4.10.1.2.)
#[derive(Drop, PartialEq, Eq)]
pub enum VType {
    /// Anything.
    Top,
    /// A number of 32 bits.
    Int,
    /// The null reference.
    Null,
    /// A reference to an object of this class, or of this array type, whose name is its descriptor.
    Ref(Name),
    /// The object that this constructor makes, before the constructor of its superclass is called.
    UninitThis,
    /// What the `new` of this index, counted in instructions, made, before its constructor is called.
    Uninit(u32),
}

impl VType {
    /// The type once more, with the same name.
    pub fn share(&self) -> Result<VType, NoMemory>
        ensures { IfOk result (λ t. t ≡ self.now) }
    {
        match self {
            VType::Top => Ok(VType::Top),
            VType::Int => Ok(VType::Int),
            VType::Null => Ok(VType::Null),
            VType::Ref(name) => Ok(VType::Ref(name.share()?)),
            VType::UninitThis => Ok(VType::UninitThis),
            VType::Uninit(at) => Ok(VType::Uninit(*at)),
        }
    }
}

/// The types before an instruction: of the locals, and of the operand stack from its bottom. Instructions that follow one
/// another mostly have the same locals, and share them.
#[derive(Drop)]
pub struct FrameType {
    pub locals: SharedList<VType>,
    pub stack: List<VType>,
}

/// The frame types of a program by class, method with code, and instruction. `None`: it is not reached.
#[derive(Drop)]
pub struct Typing {
    pub frames: List<List<List<Option<FrameType>>>>,
}
