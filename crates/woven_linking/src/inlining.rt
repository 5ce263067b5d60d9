//! A program becomes the program with the blocks of a policy: in mode hold a block holds the lock over the call, in mode release it lets
//! the lock go before.

ghost use Rattle.std.specs.Prelude.{◌≡◌, ◌≢◌, IfErr, IfOk, IsOk, None, Some, map};
ghost use Rattle.std.specs.List.{AllByRecursion};
ghost use Rattle.mon_base.specs.Answer.{Answers};
ghost use Rattle.bytecode_model.specs.Sound.{IsSound};
ghost use Rattle.block_template.specs.Blocks.{plan_of};
ghost use Rattle.class_codec.specs.Fits.{IsEncodable};
ghost use Rattle.conspec_automaton.specs.Sound.{IsPolicy};
ghost use Rattle.offset_patch.specs.Sizes.{first_unfit};
ghost use Rattle.offset_patch.specs.declared.fault.SpliceFault.TheVariants.{Memory};
ghost use Rattle.class_weaving.specs.Sizes.{program_sizes};
ghost use Rattle.class_weaving.specs.Woven.{woven};
ghost use Rattle.woven_linking.specs.Inlined.{IsMadeBeside, IsOfFiles, as_program, inlined, inlined_beside};

use crate::program::{program_beside, program_with};
use block_template::PolicyPlan;
use bytecode_model::{LinkedClass, Origin, Program};
use cert_format::Mode;
use class_weaving::{Woven, weave};
use conspec_automaton::Policy;
use mon_base::{List, NoMemory};
use offset_patch::SpliceFault;
use std::alloc::Global;

/// A program with the blocks of a policy, the mode of these, and for each class, each of its methods with code and each instruction of
/// that where it comes from. The last class is `conspec/State`.
#[derive(Drop)]
pub struct Inlined {
    pub program: Program,
    pub mode: Mode,
    pub origins: List<List<List<Origin>>>,
}

/// The program with a block for each call of a method that the policy has a clause for, and after its classes `conspec/State`; and the
/// classes that it was made of. Or the first size that does not fit.
pub fn inline(
    alloc: Global,
    program: Program,
    policy: &Policy,
    mode: Mode,
) -> Result<(Inlined, List<LinkedClass>), SpliceFault>
    requires sound { IsSound program }
    requires policy { IsPolicy policy.now }
    ensures exact { Answers SpliceFault.Memory result (inlined program policy.now mode) }
    // Each size fits, or the first that does not is the fault.
    ensures fits { IsOk result → first_unfit (program_sizes program (plan_of policy.now mode)) ≡ None }
    ensures unfit { IfErr result (λ fault. fault ≢ Memory
        → first_unfit (program_sizes program (plan_of policy.now mode)) ≡ Some fault) }
    // Its class files can be written.
    ensures encodes { IfOk result (λ made. IsOfFiles program policy.now mode made) }
{
    match woven(alloc, &program, policy, mode) {
        Ok(made) => match relinked(alloc, program, made, mode) {
            Ok(made) => Ok(made),
            Err(NoMemory) => Err(SpliceFault::Memory),
        },
        Err(fault) => {
            drop(program);
            Err(fault)
        }
    }
}

/// The class files with their blocks.
fn woven(
    alloc: Global,
    program: &Program,
    policy: &Policy,
    mode: Mode,
) -> Result<Woven, SpliceFault>
    requires sound { IsSound program.now }
    requires policy { IsPolicy policy.now }
    ensures exact { Answers SpliceFault.Memory result (woven program.now (plan_of policy.now mode) policy.now.vars) }
    ensures fits { IsOk result → first_unfit (program_sizes program.now (plan_of policy.now mode)) ≡ None }
    ensures unfit { IfErr result (λ fault. fault ≢ Memory
        → first_unfit (program_sizes program.now (plan_of policy.now mode)) ≡ Some fault) }
    ensures encodes { IfOk result (λ made. AllByRecursion IsEncodable made.files) }
{
    let plan = PolicyPlan::new(policy, mode);
    weave(alloc, program, &plan, policy.vars.as_slice())
}

/// The program that the files link to, and the classes that it was made of.
fn relinked(
    alloc: Global,
    program: Program,
    made: Woven,
    mode: Mode,
) -> Result<(Inlined, List<LinkedClass>), NoMemory>
    ensures { IfOk result (λ new. new ≡ (as_program program made mode, program.classes)) }
{
    let Woven {
        files,
        methods,
        origins,
    } = made;
    let linked = program_with(alloc, program, files, methods);
    match linked {
        Ok((program, classes)) => Ok((
            Inlined {
                program,
                mode,
                origins,
            },
            classes,
        )),
        Err(NoMemory) => {
            drop(origins);
            Err(NoMemory)
        }
    }
}

/// The same, and the program stays as it is: what both share is copied.
pub fn inline_beside(
    alloc: Global,
    program: &Program,
    policy: &Policy,
    mode: Mode,
) -> Result<Inlined, SpliceFault>
    requires sound { IsSound program.now }
    requires policy { IsPolicy policy.now }
    ensures exact { Answers SpliceFault.Memory result (inlined_beside program.now policy.now mode) }
    // Each size fits, or the first that does not is the fault.
    ensures fits { IsOk result → first_unfit (program_sizes program.now (plan_of policy.now mode)) ≡ None }
    ensures unfit { IfErr result (λ fault. fault ≢ Memory
        → first_unfit (program_sizes program.now (plan_of policy.now mode)) ≡ Some fault) }
    // Its class files can be written.
    ensures encodes { IfOk result (IsMadeBeside program.now policy.now mode) }
{
    let Woven {
        files,
        methods,
        origins,
    } = woven(alloc, program, policy, mode)?;
    let linked = program_beside(alloc, program, files, methods);
    match linked {
        Ok(program) => Ok(Inlined {
            program,
            mode,
            origins,
        }),
        Err(NoMemory) => {
            drop(origins);
            Err(SpliceFault::Memory)
        }
    }
}
