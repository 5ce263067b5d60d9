//! Equal copies of programs and their parts.

ghost use Rattle.std.specs.Prelude.{◌≡◌, IfOk, OnOk};
ghost use Rattle.insn_codec.specs.declared.insn.Insn.TheVariants.{Table, Lookup};
ghost use Rattle.bytecode_model.specs.Copying.{codeless};

use crate::exception_table::Handlers;
use crate::program::{Handler, LinkedClass, Method, Program};
use api_listing::{ListedClass, ListedMethod, Listing};
use class_codec::{Copied, copy_list};
use insn_codec::Insn;
use mon_base::{BoxedList, Bytes, List, MethodId, NoMemory};
use std::alloc::Global;

impl Program {
    /// An equal program.
    pub fn copy(&self, alloc: Global) -> Result<Program, NoMemory>
        ensures { IfOk result (λ copy. copy ≡ self.now) }
    {
        let classes = copy_list(alloc, &self.classes)?;
        let listing = copy_listing(alloc, &self.listing)?;
        let literals = copy_texts(alloc, self.literals.as_slice())?;
        Ok(Program {
            classes,
            listing,
            literals,
            main_class: self.main_class,
            main_method: self.main_method,
        })
    }
}

impl Copied for LinkedClass {
    fn copy(&self, alloc: Global) -> Result<LinkedClass, NoMemory> {
        let name = self.name.copy(alloc)?;
        let parent = self.parent.copy(alloc)?;
        let methods = copy_list(alloc, &self.methods)?;
        let file = self.file.copy(alloc)?;
        Ok(LinkedClass {
            name,
            parent,
            file,
            methods,
        })
    }
}

impl Copied for Method {
    fn copy(&self, alloc: Global) -> Result<Method, NoMemory> {
        let mut copy = copy_codeless(alloc, self)?;
        put_code(alloc, self, &mut copy)?;
        Ok(copy)
    }
}

/// The method without its instructions, operands and handlers.
fn copy_codeless(alloc: Global, method: &Method) -> Result<Method, NoMemory>
    ensures { IfOk result (λ copy. copy ≡ codeless method.now) }
{
    Ok(Method {
        flags: method.flags,
        name: method.name.copy(alloc)?,
        desc: method.desc.copy(alloc)?,
        max_stack: method.max_stack,
        max_locals: method.max_locals,
        insns: List::new(alloc),
        refs: List::new(alloc),
        handlers: Handlers::none(alloc),
    })
}

/// Puts in the instructions, operands and handlers of the method.
fn put_code(alloc: Global, method: &Method, copy: &mut Method) -> Result<(), NoMemory>
    requires { copy.old ≡ codeless method.now }
    ensures { OnOk result (copy.new ≡ method.now) }
{
    copy.insns = copy_insns(alloc, method.insns.as_slice())?;
    copy.refs = copy_list(alloc, &method.refs)?;
    copy.handlers = method.handlers.copy(alloc)?;
    Ok(())
}

impl Copied for Handler {
    fn copy(&self, alloc: Global) -> Result<Handler, NoMemory> {
        Ok(Handler {
            from: self.from,
            to: self.to,
            at: self.at,
            class: copy_name(alloc, &self.class)?,
        })
    }
}

fn copy_name(alloc: Global, name: &Option<Bytes>) -> Result<Option<Bytes>, NoMemory>
    ensures { IfOk result (λ copy. copy ≡ name.now) }
{
    match name {
        Some(name) => Ok(Some(name.copy(alloc)?)),
        None => Ok(None),
    }
}

fn copy_insns(alloc: Global, insns: &[Insn]) -> Result<List<Insn>, NoMemory>
    ensures { IfOk result (λ copy. copy ≡ insns.now) }
{
    let mut copy = List::new(alloc);
    for insn in insns {
        let one = copy_insn(alloc, insn)?;
        copy.push(one)?;
    }
    Ok(copy)
}

/// The instruction again.
pub fn copy_insn(alloc: Global, insn: &Insn) -> Result<Insn, NoMemory>
    ensures { IfOk result (λ copy. copy ≡ insn.now) }
{
    match insn {
        Insn::Plain(op) => Ok(Insn::Plain(*op)),
        Insn::Byte(n) => Ok(Insn::Byte(*n)),
        Insn::Short(n) => Ok(Insn::Short(*n)),
        Insn::Ldc(index) => Ok(Insn::Ldc(*index)),
        Insn::Pool { op, index } => Ok(Insn::Pool {
            op: *op,
            index: *index,
        }),
        Insn::Iface { index, count } => Ok(Insn::Iface {
            index: *index,
            count: *count,
        }),
        Insn::Local { op, slot, wide } => Ok(Insn::Local {
            op: *op,
            slot: *slot,
            wide: *wide,
        }),
        Insn::Inc { slot, by, wide } => Ok(Insn::Inc {
            slot: *slot,
            by: *by,
            wide: *wide,
        }),
        Insn::Branch { op, to } => Ok(Insn::Branch { op: *op, to: *to }),
        Insn::GotoW { to } => Ok(Insn::GotoW { to: *to }),
        Insn::NewArray(kind) => Ok(Insn::NewArray(*kind)),
        Insn::Table {
            other,
            low,
            targets,
        } => copy_table(alloc, *other, *low, targets.as_slice()),
        Insn::Lookup {
            other,
            keys,
            targets,
        } => copy_lookup(alloc, *other, keys.as_slice(), targets.as_slice()),
    }
}

fn copy_table(alloc: Global, other: u32, low: i32, targets: &[u32]) -> Result<Insn, NoMemory>
    ensures { IfOk result (λ copy. copy ≡ Table other low targets.now) }
{
    let targets = copy_targets(alloc, targets)?;
    Ok(Insn::Table {
        other,
        low,
        targets,
    })
}

fn copy_lookup(alloc: Global, other: u32, keys: &[i32], targets: &[u32]) -> Result<Insn, NoMemory>
    ensures { IfOk result (λ copy. copy ≡ Lookup other keys.now targets.now) }
{
    let keys = copy_keys(alloc, keys)?;
    let targets = copy_targets(alloc, targets)?;
    Ok(Insn::Lookup {
        other,
        keys,
        targets,
    })
}

fn copy_targets(alloc: Global, targets: &[u32]) -> Result<BoxedList<u32>, NoMemory>
    ensures { IfOk result (λ copy. copy ≡ targets.now) }
{
    let items = Vec::from_slice(alloc, targets)?;
    let list = List::from_vec(items);
    BoxedList::new(alloc, list)
}

/// The keys of a `lookupswitch` again.
pub fn copy_keys(alloc: Global, keys: &[i32]) -> Result<BoxedList<i32>, NoMemory>
    ensures { IfOk result (λ copy. copy ≡ keys.now) }
{
    let items = Vec::from_slice(alloc, keys)?;
    let list = List::from_vec(items);
    BoxedList::new(alloc, list)
}

fn copy_listing(alloc: Global, listing: &Listing) -> Result<Listing, NoMemory>
    ensures { IfOk result (λ copy. copy ≡ listing.now) }
{
    Ok(Listing {
        classes: copy_classes(alloc, listing.classes.as_slice())?,
        methods: copy_methods(alloc, listing.methods.as_slice())?,
        fields: copy_ids(alloc, listing.fields.as_slice())?,
    })
}

/// Equal classes.
pub fn copy_classes(alloc: Global, classes: &[ListedClass]) -> Result<List<ListedClass>, NoMemory>
    ensures { IfOk result (λ copy. copy ≡ classes.now) }
{
    let mut copy = List::new(alloc);
    for class in classes {
        let one = class.copy(alloc)?;
        copy.push(one)?;
    }
    Ok(copy)
}

fn copy_methods(alloc: Global, methods: &[ListedMethod]) -> Result<List<ListedMethod>, NoMemory>
    ensures { IfOk result (λ copy. copy ≡ methods.now) }
{
    let mut copy = List::new(alloc);
    for method in methods {
        let one = method.copy(alloc)?;
        copy.push(one)?;
    }
    Ok(copy)
}

fn copy_ids(alloc: Global, ids: &[MethodId]) -> Result<List<MethodId>, NoMemory>
    ensures { IfOk result (λ copy. copy ≡ ids.now) }
{
    let mut copy = List::new(alloc);
    for id in ids {
        let one = id.copy(alloc)?;
        copy.push(one)?;
    }
    Ok(copy)
}

fn copy_texts(alloc: Global, texts: &[Bytes]) -> Result<List<Bytes>, NoMemory>
    ensures { IfOk result (λ copy. copy ≡ texts.now) }
{
    let mut copy = List::new(alloc);
    for text in texts {
        let one = text.copy(alloc)?;
        copy.push(one)?;
    }
    Ok(copy)
}
