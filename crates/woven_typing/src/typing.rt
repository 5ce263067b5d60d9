//! The typing of a woven program.

ghost use Rattle.std.specs.Prelude.{◌≡◌, ◌≤◌, ◌++◌, length, IfOk, OnOk};
ghost use Rattle.std.specs.List.{AllByRecursion};
ghost use Rattle.bytecode_model.specs.Sound.{IsSound, IsSoundClass, IsSoundMethod};
ghost use Rattle.conspec_automaton.specs.Sound.{IsPolicy};
ghost use Rattle.bytecode_model.specs.Typed.{list_at};
ghost use Rattle.woven_typing.specs.Framing.{
  classes_typed,
  client_of,
  frames_woven,
  methods_typed,
  typing_of,
};

use crate::framing::{Client, Frames, Weaving, frames_woven};
use crate::roles::Names;
use block_template::PolicyItems;
use bytecode_model::{LinkedClass, Method, Program, after_first, list_at};
use cert_format::{Mode, Typing};
use conspec_automaton::Policy;
use mon_base::{List, NoMemory};
use std::alloc::Global;

/// The frames of a method with its blocks, where the first of these are its own.
fn method_typed(
    alloc: Global,
    weaving: &Weaving,
    own: u32,
    class: &LinkedClass,
    method: &Method,
    told: &[Frames],
) -> Result<Frames, NoMemory>
    requires { IsSoundMethod method.now }
    ensures { IfOk result (λ made. made
        ≡ frames_woven (client_of weaving.now.program.now weaving.now.items.now.policy weaving.now.items.now.mode
        own class.now method.now) (list_at told.now 0)) }
{
    let client = Client::new(alloc, weaving, own, class, method)?;
    frames_woven(alloc, &client, list_at(told, 0))
}

/// Those of the methods with code.
fn methods_typed(
    alloc: Global,
    weaving: &Weaving,
    own: u32,
    class: &LinkedClass,
    methods: &[Method],
    told: &[Frames],
) -> Result<List<Frames>, NoMemory>
    requires { AllByRecursion IsSoundMethod methods.now }
    ensures { IfOk result (λ made. made
        ≡ methods_typed weaving.now.program.now weaving.now.items.now.policy weaving.now.items.now.mode
        own class.now methods.now told.now) }
{
    let mut made = List::with_room(alloc, told.len())?;
    put_methods(alloc, &mut made, weaving, own, class, methods, told)?;
    Ok(made)
}

/// Appends those of the methods with code.
fn put_methods(
    alloc: Global,
    made: &mut List<Frames>,
    weaving: &Weaving,
    own: u32,
    class: &LinkedClass,
    methods: &[Method],
    told: &[Frames],
) -> Result<(), NoMemory>
    requires { AllByRecursion IsSoundMethod methods.now }
    ensures { OnOk result (made.new ≡ made.old
        ++ methods_typed weaving.now.program.now weaving.now.items.now.policy weaving.now.items.now.mode
        own class.now methods.now told.now) }
{
    let mut methods = methods;
    let mut told = told;
    while let [method, later @ ..] = methods {
        if !method.insns.is_empty() {
            let one = method_typed(alloc, weaving, own, class, method, told)?;
            made.push(one)?;
            told = after_first(told);
        }
        methods = later;
    }
    Ok(())
}

/// Those of the classes, of which the first has the index 0.
fn classes_typed(
    alloc: Global,
    weaving: &Weaving,
    classes: &[LinkedClass],
    told: &[List<Frames>],
) -> Result<List<List<Frames>>, NoMemory>
    requires few { length classes.now ≤ 1001 }
    requires sound { AllByRecursion IsSoundClass classes.now }
    ensures { IfOk result (λ made. made
        ≡ classes_typed weaving.now.program.now weaving.now.items.now.policy weaving.now.items.now.mode
        0 classes.now told.now) }
{
    let mut made = List::with_room(alloc, classes.len().saturating_add(1))?;
    put_classes(alloc, &mut made, weaving, classes, told)?;
    Ok(made)
}

/// Appends those of the classes, of which the first has the index 0, and after them that of `conspec/State`.
fn put_classes(
    alloc: Global,
    made: &mut List<List<Frames>>,
    weaving: &Weaving,
    classes: &[LinkedClass],
    told: &[List<Frames>],
) -> Result<(), NoMemory>
    requires few { length classes.now ≤ 1001 }
    requires sound { AllByRecursion IsSoundClass classes.now }
    ensures { OnOk result (made.new ≡ made.old
        ++ classes_typed weaving.now.program.now weaving.now.items.now.policy weaving.now.items.now.mode
        0 classes.now told.now) }
{
    let mut own: u32 = 0;
    let mut classes = classes;
    let mut told = told;
    while let [class, later @ ..] = classes {
        let methods = class.methods.as_slice();
        let one = methods_typed(alloc, weaving, own, class, methods, list_at(told, 0))?;
        made.push(one)?;
        own += 1;
        classes = later;
        told = after_first(told);
    }
    made.push(List::new(alloc))
}

/// The typing of what is woven of the program, where this is the program's own.
pub fn typing_of(
    alloc: Global,
    program: &Program,
    policy: &Policy,
    mode: Mode,
    typing: &Typing,
) -> Result<Typing, NoMemory>
    requires sound { IsSound program.now }
    requires policy { IsPolicy policy.now }
    ensures { IfOk result (λ made. made ≡ typing_of program.now policy.now mode typing.now) }
{
    let items = PolicyItems::new(alloc, policy, mode)?;
    let names = Names::new(alloc)?;
    let weaving = Weaving {
        program,
        items: &items,
        names: &names,
    };
    let frames = classes_typed(
        alloc,
        &weaving,
        program.classes.as_slice(),
        typing.frames.as_slice(),
    )?;
    Ok(Typing { frames })
}
