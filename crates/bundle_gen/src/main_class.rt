//! The main class, which makes a thread of each class and begins it.

ghost use Rattle.std.specs.Prelude.{◌≡◌, ◌≤◌, ◌<◌, ◌++◌, IfOk, OnOk};
ghost use Rattle.bundle_gen.specs.Code.{IsShortCode};
ghost use Rattle.bundle_gen.specs.Generated.{
  thread_begun,
  begun_from,
  main_class,
  main_code,
  main_method,
  main_own,
  named,
  named_from,
  constants_place,
};

use crate::members::{Head, class_file, method};
use crate::pool::{put_text, put_thread_name};
use class_codec::{ClassFile, Const, Member};
use insn_codec::Insn;
use insn_codec::opcodes::{DUP, INVOKESPECIAL, INVOKEVIRTUAL, NEW, RETURN};
use mon_base::{List, NoMemory};
use std::alloc::Global;

/// The main class for so many classes of threads.
#[tactic(auto, unfolding(crate::specs::Generated::main_class))]
pub fn main_class(alloc: Global, classes: u32) -> Result<ClassFile, NoMemory>
    requires { classes ≤ 200 }
    ensures { IfOk result (λ file. file ≡ main_class classes) }
{
    let pool = pool_of(alloc, classes)?;
    let mut methods = List::new(alloc);
    methods.push(main_method(alloc, classes)?)?;
    Ok(class_file(alloc, pool, methods))
}

fn pool_of(alloc: Global, classes: u32) -> Result<List<Const>, NoMemory>
    requires { classes ≤ 200 }
    ensures { IfOk result (λ pool. pool ≡ main_own ++ named_from 0 classes) }
{
    let mut pool = own(alloc)?;
    put_all_named(alloc, &mut pool, classes)?;
    Ok(pool)
}

/// The constants for the class itself.
fn own(alloc: Global) -> Result<List<Const>, NoMemory>
    ensures { IfOk result (λ pool. pool ≡ main_own) }
{
    let mut pool = List::new(alloc);
    pool.push(Const::Second)?;
    put_text(alloc, &mut pool, "g/Main")?;
    pool.push(Const::Class(1))?;
    put_text(alloc, &mut pool, "java/lang/Object")?;
    pool.push(Const::Class(3))?;
    put_text(alloc, &mut pool, "main")?;
    put_text(alloc, &mut pool, "([Ljava/lang/String;)V")?;
    put_text(alloc, &mut pool, "Code")?;
    put_text(alloc, &mut pool, "<init>")?;
    put_text(alloc, &mut pool, "()V")?;
    pool.push(Const::NameAndType(8, 9))?;
    put_text(alloc, &mut pool, "start")?;
    pool.push(Const::NameAndType(11, 9))?;
    Ok(pool)
}

/// Appends the constants for the classes of threads.
fn put_all_named(alloc: Global, pool: &mut List<Const>, classes: u32) -> Result<(), NoMemory>
    requires { classes ≤ 200 }
    ensures { OnOk result (pool.new ≡ pool.old ++ named_from 0 classes) }
{
    let mut index: u32 = 0;
    let mut left = classes;
    while left > 0 {
        put_named(alloc, pool, index)?;
        index += 1;
        left -= 1;
    }
    Ok(())
}

/// Appends the constants for the class of this index.
#[tactic(auto, unfolding(crate::specs::Generated::named))]
fn put_named(alloc: Global, pool: &mut List<Const>, index: u32) -> Result<(), NoMemory>
    requires { index < 200 }
    ensures { OnOk result (pool.new ≡ pool.old ++ named index) }
{
    let place = constants_place(index);
    put_thread_name(alloc, pool, index)?;
    pool.push(Const::Class(place))?;
    pool.push(Const::Method(place + 1, 10))?;
    pool.push(Const::Method(place + 1, 12))?;
    Ok(())
}

/// The place of the name of the class of this index.
fn constants_place(index: u32) -> u16
    requires { index < 200 }
    ensures { result ≡ constants_place index }
{
    (13 + 4 * index) as u16
}

fn main_method(alloc: Global, classes: u32) -> Result<Member, NoMemory>
    requires { classes ≤ 200 }
    ensures { IfOk result (λ member. member ≡ main_method classes) }
{
    let code = main_code(alloc, classes)?;
    let head = Head {
        flags: 0x0009,
        name: 5,
        code: 7,
        max_stack: 2,
    };
    method(alloc, &head, code.as_slice())
}

/// The code of `main`.
fn main_code(alloc: Global, classes: u32) -> Result<List<Insn>, NoMemory>
    requires { classes ≤ 200 }
    ensures is { IfOk result (λ code. code ≡ main_code classes) }
    ensures short { IfOk result IsShortCode }
{
    let mut code = List::new(alloc);
    put_all_begun(&mut code, classes)?;
    code.push(Insn::Plain(RETURN))?;
    Ok(code)
}

/// Appends the instructions that begin a thread of each class.
fn put_all_begun(code: &mut List<Insn>, classes: u32) -> Result<(), NoMemory>
    requires { classes ≤ 200 }
    ensures { OnOk result (code.new ≡ code.old ++ begun_from 0 classes) }
{
    let mut index: u32 = 0;
    let mut left = classes;
    while left > 0 {
        put_begun(code, index)?;
        index += 1;
        left -= 1;
    }
    Ok(())
}

/// Appends the instructions that begin a thread of the class of this index.
#[tactic(auto, unfolding(crate::specs::Generated::thread_begun))]
fn put_begun(code: &mut List<Insn>, index: u32) -> Result<(), NoMemory>
    requires { index < 200 }
    ensures { OnOk result (code.new ≡ code.old ++ thread_begun index) }
{
    let place = constants_place(index);
    code.push(Insn::Pool {
        op: NEW,
        index: place + 1,
    })?;
    code.push(Insn::Plain(DUP))?;
    code.push(Insn::Pool {
        op: INVOKESPECIAL,
        index: place + 2,
    })?;
    code.push(Insn::Pool {
        op: INVOKEVIRTUAL,
        index: place + 3,
    })?;
    Ok(())
}
