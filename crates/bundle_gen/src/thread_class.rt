//! The classes of the threads.

ghost use Rattle.std.specs.Prelude.{◌≡◌, ◌∷◌, [], ◌≤◌, ◌++◌, IfOk, OnOk};
ghost use Rattle.bundle_gen.specs.Draws.{state_after};
ghost use Rattle.bundle_gen.specs.Generated.{init_method, library, run_method, thread_class, thread_own};

use crate::code::{init_code, run_code};
use crate::members::{Head, class_file, method};
use crate::pool::{put_text, put_thread_name};
use class_codec::{ClassFile, Const, Member};
use mon_base::{List, NoMemory};
use std::alloc::Global;

/// The class of this index, with so many sites whose draws begin after this state; and the state after them.
#[tactic(auto, unfolding(crate::specs::Generated::thread_class))]
pub fn thread_class(
    alloc: Global,
    index: u32,
    state: u64,
    sites: u32,
) -> Result<(ClassFile, u64), NoMemory>
    requires { sites ≤ 500 }
    ensures is { IfOk result (λ made. made.0 ≡ thread_class index state sites) }
    ensures after { IfOk result (λ made. made.1 ≡ state_after state sites) }
{
    let pool = pool_of(alloc, index)?;
    let (methods, after) = methods(alloc, state, sites)?;
    Ok((class_file(alloc, pool, methods), after))
}

fn pool_of(alloc: Global, index: u32) -> Result<List<Const>, NoMemory>
    ensures { IfOk result (λ pool. pool ≡ thread_own index ++ library) }
{
    let mut pool = own(alloc, index)?;
    put_library(alloc, &mut pool)?;
    Ok(pool)
}

/// The constants for the class itself.
fn own(alloc: Global, index: u32) -> Result<List<Const>, NoMemory>
    ensures { IfOk result (λ pool. pool ≡ thread_own index) }
{
    let mut pool = List::new(alloc);
    pool.push(Const::Second)?;
    put_thread_name(alloc, &mut pool, index)?;
    pool.push(Const::Class(1))?;
    put_text(alloc, &mut pool, "java/lang/Thread")?;
    pool.push(Const::Class(3))?;
    put_text(alloc, &mut pool, "<init>")?;
    put_text(alloc, &mut pool, "()V")?;
    pool.push(Const::NameAndType(5, 6))?;
    pool.push(Const::Method(4, 7))?;
    put_text(alloc, &mut pool, "run")?;
    put_text(alloc, &mut pool, "Code")?;
    Ok(pool)
}

/// Appends the constants for the methods of the library.
fn put_library(alloc: Global, pool: &mut List<Const>) -> Result<(), NoMemory>
    ensures { OnOk result (pool.new ≡ pool.old ++ library) }
{
    put_text(alloc, pool, "api/Net")?;
    pool.push(Const::Class(11))?;
    put_text(alloc, pool, "send")?;
    put_text(alloc, pool, "(I)V")?;
    pool.push(Const::NameAndType(13, 14))?;
    pool.push(Const::Method(12, 15))?;
    put_text(alloc, pool, "read")?;
    put_text(alloc, pool, "()I")?;
    pool.push(Const::NameAndType(17, 18))?;
    pool.push(Const::Method(12, 19))?;
    Ok(())
}

/// The two methods, and the state after the draws of the sites.
fn methods(alloc: Global, state: u64, sites: u32) -> Result<(List<Member>, u64), NoMemory>
    requires { sites ≤ 500 }
    ensures is { IfOk result (λ made. made.0 ≡ init_method ∷ run_method state sites ∷ []) }
    ensures after { IfOk result (λ made. made.1 ≡ state_after state sites) }
{
    let mut methods = List::new(alloc);
    methods.push(init_method(alloc)?)?;
    let (run, after) = run_method(alloc, state, sites)?;
    methods.push(run)?;
    Ok((methods, after))
}

fn init_method(alloc: Global) -> Result<Member, NoMemory>
    ensures { IfOk result (λ member. member ≡ init_method) }
{
    let code = init_code(alloc)?;
    let head = Head {
        flags: 0x0001,
        name: 5,
        code: 10,
        max_stack: 1,
    };
    method(alloc, &head, code.as_slice())
}

fn run_method(alloc: Global, state: u64, sites: u32) -> Result<(Member, u64), NoMemory>
    requires { sites ≤ 500 }
    ensures is { IfOk result (λ made. made.0 ≡ run_method state sites) }
    ensures after { IfOk result (λ made. made.1 ≡ state_after state sites) }
{
    let (code, after) = run_code(alloc, state, sites)?;
    let head = Head {
        flags: 0x0001,
        name: 9,
        code: 10,
        max_stack: 1,
    };
    let run = method(alloc, &head, code.as_slice())?;
    Ok((run, after))
}
