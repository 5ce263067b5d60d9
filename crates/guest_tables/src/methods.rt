//! The methods of the given classes by their names and descriptors, of which the first counts. The maps are made once.

ghost use Rattle.std.specs.Option.{option_or};
ghost use Rattle.std.specs.Prelude.{
  IfOk,
  List,
  None,
  OnOk,
  Some,
  bytes_eq,
  if◌then◌else◌,
  length,
  ℕ,
  ◌&&◌,
  ◌<◌,
  ◌^◌,
  ◌≡◌,
};
ghost use Rattle.guest_model.specs.Ready.{IsReady};
ghost use Rattle.guest_tables.specs.Arities.{arities_of};
ghost use Rattle.guest_tables.specs.Methods.{AreMethods, HasMethods, method_in};
ghost use Rattle.bytecode_model.specs.ByName.{noted};

use crate::arities::arities_of;
use bytecode_model::{ByName, Method, Program, note, noted};
use mon_base::{Bytes, List, NoMemory};
use std::alloc::Global;
use std::collections::BTreeMap;

/// The indices of methods by their names, and of those of one name by their descriptors.
pub type Methods = ByName<ByName<u32>>;

/// The methods of each given class by their names and descriptors, and how many arguments each of them takes.
#[derive(Drop)]
pub struct MethodTables {
    pub named: List<Methods>,
    pub arities: List<List<u8>>,
}

/// The methods of the given classes.
pub fn methods_of(alloc: Global, program: &Program) -> Result<MethodTables, NoMemory>
    requires { IsReady program.now }
    ensures named { IfOk result (λ tables. AreMethods tables.named program.now.classes) }
    ensures arities { IfOk result (λ tables. tables.arities ≡ arities_of program.now) }
{
    let named = names_of(alloc, program)?;
    let arities = arities_of(alloc, program)?;
    Ok(MethodTables { named, arities })
}

/// The index of the method of this name and descriptor.
pub fn method_in(methods: &Methods, name: &[u8], desc: &[u8]) -> Option<u32>
    ensures { result ≡ method_in methods.now name.now desc.now }
{
    match methods.get(name) {
        Some(same_name) => noted(same_name, desc),
        None => None,
    }
}

/// The methods of each given class.
fn names_of(alloc: Global, program: &Program) -> Result<List<Methods>, NoMemory>
    requires { IsReady program.now }
    ensures { IfOk result (λ methods. AreMethods methods program.now.classes) }
{
    let mut methods = List::new(alloc);
    for class in program.classes.as_slice() {
        methods.push(methods_in(alloc, class.methods.as_slice())?)?;
    }
    Ok(methods)
}

/// The methods of a class.
fn methods_in(alloc: Global, methods: &[Method]) -> Result<Methods, NoMemory>
    requires { length methods.now < 2 ^ 16 }
    ensures { IfOk result (λ table. HasMethods table methods.now) }
{
    let mut table = BTreeMap::new(alloc);
    let mut index = 0;
    let mut left = methods;
    while let [method, rest @ ..] = left {
        add_method(alloc, &mut table, &method.name, &method.desc, index)?;
        index += 1;
        left = rest;
    }
    Ok(table)
}

/// Notes the index of a method, if its name and descriptor are new.
fn add_method(
    alloc: Global,
    methods: &mut Methods,
    name: &Bytes,
    desc: &Bytes,
    index: u32,
) -> Result<(), NoMemory>
    ensures { OnOk result ((n d : List ℕ) → method_in methods.new n d
        ≡ option_or (method_in methods.old n d) (if bytes_eq name.now n && bytes_eq desc.now d then Some index else None)) }
{
    let mut same_name = taken(alloc, methods, name.as_slice());
    note(alloc, &mut same_name, desc, index)?;
    methods.insert(Vec::from_slice(alloc, name.as_slice())?, same_name)?;
    Ok(())
}

/// Takes out the methods of this name; none where there are none.
fn taken(alloc: Global, methods: &mut Methods, name: &[u8]) -> ByName<u32>
    ensures was { (d : List ℕ) → noted result d ≡ method_in methods.old name.now d }
    ensures left { (q : List ℕ) → noted methods.new q ≡ (if bytes_eq name.now q then None else noted methods.old q) }
{
    match methods.remove(name) {
        Some(same_name) => same_name,
        None => BTreeMap::new(alloc),
    }
}
