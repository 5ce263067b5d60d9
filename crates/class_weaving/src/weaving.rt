//! A program becomes class files with blocks.

ghost use Rattle.std.specs.Prelude.{◌≡◌, ◌≢◌, ◌<◌, ◌≤◌, ◌^◌, FitsSigned, IfErr, IfOk, IsOk, None, OnOk, Some, length, map};
ghost use Rattle.std.specs.Int.{w32};
ghost use Rattle.std.specs.List.{AllByRecursion};
ghost use Rattle.class_codec.specs.Fits.{IsEncodable};
ghost use Rattle.conspec_tree.specs.declared.types.Var.{Var};
ghost use Rattle.bytecode_model.specs.Sound.{IsSound, IsSoundClass};
ghost use Rattle.mon_base.specs.Answer.{Answers, AnswersAs};
ghost use Rattle.offset_patch.specs.Plan.{IsGood};
ghost use Rattle.offset_patch.specs.Sizes.{first_unfit};
ghost use Rattle.offset_patch.specs.declared.fault.SpliceFault.TheVariants.{Memory};
ghost use Rattle.class_weaving.specs.Sizes.{program_sizes};
ghost use Rattle.class_weaving.specs.Woven.{none_made, file_with, file_put, class_woven, classes_woven, nothing_woven, state_put, woven};

use crate::members::members_woven;
use crate::state::state_file;
use crate::woven::{Members, Woven};
use bytecode_model::{LinkedClass, Program};
use class_codec::{Attr, ClassFile, Member, copy_list};
use conspec_tree::Var;
use mon_base::{List, NoMemory};
use offset_patch::{Entries, Planner, SpliceFault};
use std::alloc::Global;

/// The class files of a program with a block for each instruction to which the planner gives one, and after them
/// `conspec/State` of these variables; or the first size that does not fit.
pub fn weave<P: Planner>(
    alloc: Global,
    program: &Program,
    planner: &P,
    vars: &[Var],
) -> Result<Woven, SpliceFault>
    requires sound { IsSound program.now }
    requires good { IsGood (map (λ (v : Var). v.is_bool) vars.now) (P.plan planner.now) }
    requires few { length vars.now ≤ 16 }
    ensures exact { Answers SpliceFault.Memory result (woven program.now (P.plan planner.now) vars.now) }
    // Each size fits, or the first that does not is the fault.
    ensures fits { IsOk result → first_unfit (program_sizes program.now (P.plan planner.now)) ≡ None }
    ensures unfit { IfErr result (λ fault. fault ≢ Memory → first_unfit (program_sizes program.now (P.plan planner.now)) ≡ Some fault) }
    // The files can be written.
    ensures encodes { AllByRecursion (λ (v : Var). FitsSigned w32 v.first) vars.now
        → IfOk result (λ made. AllByRecursion IsEncodable made.files) }
{
    all_woven(alloc, program, planner, vars)
}

fn all_woven<P: Planner>(
    alloc: Global,
    program: &Program,
    planner: &P,
    vars: &[Var],
) -> Result<Woven, SpliceFault>
    requires sound { IsSound program.now }
    requires few { length vars.now ≤ 16 }
    ensures { Answers SpliceFault.Memory result (woven program.now (P.plan planner.now) vars.now) }
{
    let state = program.classes.len() as u32;
    let mut woven = nothing_woven(alloc, program.classes.len() + 1)?;
    classes_woven(
        alloc,
        planner,
        state,
        &mut woven,
        program.classes.as_slice(),
    )?;
    state_put(alloc, vars, &mut woven)?;
    Ok(woven)
}

/// Nothing is woven yet, and there is room for so many classes.
fn nothing_woven(alloc: Global, count: usize) -> Result<Woven, NoMemory>
    ensures { IfOk result (λ woven. woven ≡ nothing_woven) }
{
    let files = List::with_room(alloc, count)?;
    let methods = List::with_room(alloc, count)?;
    let origins = List::with_room(alloc, count)?;
    Ok(Woven {
        files,
        methods,
        origins,
    })
}

fn state_put(alloc: Global, vars: &[Var], woven: &mut Woven) -> Result<(), NoMemory>
    requires { length vars.now ≤ 16 }
    ensures { OnOk result (woven.new ≡ state_put vars.now woven.old) }
{
    woven.files.push(state_file(alloc, vars)?)?;
    woven.methods.push(List::new(alloc))?;
    woven.origins.push(List::new(alloc))
}

/// Appends the classes one after another, as long as each fits.
fn classes_woven<P: Planner>(
    alloc: Global,
    planner: &P,
    state: u32,
    woven: &mut Woven,
    classes: &[LinkedClass],
) -> Result<(), SpliceFault>
    requires { AllByRecursion IsSoundClass classes.now }
    ensures { AnswersAs SpliceFault.Memory (λ done. woven.new) result (classes_woven (P.plan planner.now) state woven.old classes.now) }
{
    let mut left = classes;
    while let [class, rest @ ..] = left {
        class_woven(alloc, planner, state, woven, class)?;
        left = rest;
    }
    Ok(())
}

fn class_woven<P: Planner>(
    alloc: Global,
    planner: &P,
    state: u32,
    woven: &mut Woven,
    class: &LinkedClass,
) -> Result<(), SpliceFault>
    requires { IsSoundClass class.now }
    ensures { AnswersAs SpliceFault.Memory (λ done. woven.new) result (class_woven (P.plan planner.now) state woven.old class.now) }
{
    let mut made = none_made(alloc, class)?;
    members_woven(
        alloc,
        planner,
        state,
        class,
        &mut made,
        class.file.methods.as_slice(),
    )?;
    file_put(alloc, woven, class, made)?;
    Ok(())
}

/// Nothing is made yet of the class.
fn none_made(alloc: Global, class: &LinkedClass) -> Result<Members, NoMemory>
    ensures { IfOk result (λ made. made ≡ none_made class.now.file.pool) }
{
    let items = List::with_room(alloc, class.file.methods.len())?;
    let methods = List::with_room(alloc, class.methods.len())?;
    let origins = List::with_room(alloc, class.methods.len())?;
    let pool = copy_list(alloc, &class.file.pool)?;
    Ok(Members {
        number: 0,
        entries: Entries::new(pool),
        items,
        methods,
        origins,
    })
}

/// Appends the file of a class whose members are made.
fn file_put(
    alloc: Global,
    woven: &mut Woven,
    class: &LinkedClass,
    made: Members,
) -> Result<(), NoMemory>
    requires { length made.entries < 2 ^ 16 }
    ensures { OnOk result (woven.new ≡ file_put woven.old class.now made) }
{
    let Members {
        entries,
        items,
        methods,
        origins,
        ..
    } = made;
    let file = file_with(alloc, &class.file, entries, items)?;
    woven.files.push(file)?;
    woven.methods.push(methods)?;
    woven.origins.push(origins)
}

/// The file with these methods and constants; all else is as it was.
fn file_with(
    alloc: Global,
    file: &ClassFile,
    entries: Entries,
    methods: List<Member>,
) -> Result<ClassFile, NoMemory>
    requires { length entries < 2 ^ 16 }
    ensures { IfOk result (λ other. other ≡ file_with file.now entries methods) }
{
    let (interfaces, fields, attrs) = lists_kept(alloc, file)?;
    let pool = entries.into_list(alloc)?;
    Ok(ClassFile {
        minor: file.minor,
        pool,
        flags: file.flags,
        this_class: file.this_class,
        super_class: file.super_class,
        interfaces,
        fields,
        methods,
        attrs,
    })
}

/// The interfaces, the fields and the attributes of the file, which stay.
fn lists_kept(
    alloc: Global,
    file: &ClassFile,
) -> Result<(List<u16>, List<Member>, List<Attr>), NoMemory>
    ensures { IfOk result (λ kept. kept ≡ (file.now.interfaces, file.now.fields, file.now.attrs)) }
{
    let interfaces = copy_list(alloc, &file.interfaces)?;
    let fields = copy_list(alloc, &file.fields)?;
    let attrs = copy_list(alloc, &file.attrs)?;
    Ok((interfaces, fields, attrs))
}
