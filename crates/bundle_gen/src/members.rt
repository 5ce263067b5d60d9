//! Methods and classes.

ghost use Rattle.std.specs.Prelude.{◌≡◌, IfOk};
ghost use Rattle.bundle_gen.specs.Code.{IsShortCode};
ghost use Rattle.bundle_gen.specs.Generated.{class_file, method};
ghost use Rattle.insn_codec.specs.Encoding.{encoding};

use class_codec::{Attr, ClassFile, Code, Const, Member};
use insn_codec::{CodeOverflow, Insn, write_code};
use mon_base::{Bytes, List, NoMemory};
use std::alloc::Global;

/// What the methods differ in, besides their code: the flags, the indices of the name and of the text `Code`, and the most operands.
#[derive(Clone, Copy)]
pub struct Head {
    pub flags: u16,
    pub name: u16,
    pub code: u16,
    pub max_stack: u16,
}

/// A method of this code.
pub fn method(alloc: Global, head: &Head, insns: &[Insn]) -> Result<Member, NoMemory>
    requires { IsShortCode insns.now }
    ensures { IfOk result (λ member. member ≡ method head.now insns.now) }
{
    let code = code_bytes(alloc, insns)?;
    let mut attrs = List::new(alloc);
    attrs.push(Attr::Code(Code {
        name: head.code,
        max_stack: head.max_stack,
        max_locals: 1,
        code,
        table: List::new(alloc),
        attrs: List::new(alloc),
    }))?;
    Ok(Member {
        flags: head.flags,
        name: head.name,
        desc: 6,
        attrs,
    })
}

/// The bytes of a code, which is short and has no jump out of reach.
fn code_bytes(alloc: Global, insns: &[Insn]) -> Result<Bytes, NoMemory>
    requires { IsShortCode insns.now }
    ensures { IfOk result (λ bytes. bytes ≡ encoding insns.now) }
{
    match write_code(alloc, insns) {
        Ok(bytes) => Ok(bytes),
        Err(CodeOverflow::Memory) => Err(NoMemory),
        Err(CodeOverflow::Length { .. }) => unreachable!(),
        Err(CodeOverflow::Branch { .. }) => unreachable!(),
    }
}

/// A class with this pool and these methods. It takes no memory.
pub fn class_file(alloc: Global, pool: List<Const>, methods: List<Member>) -> ClassFile
    ensures { result ≡ class_file pool methods }
{
    ClassFile {
        minor: 0,
        pool,
        flags: 0x0021,
        this_class: 2,
        super_class: 4,
        interfaces: List::new(alloc),
        fields: List::new(alloc),
        methods,
        attrs: List::new(alloc),
    }
}
