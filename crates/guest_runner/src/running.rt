//! Worker threads that write one book.

ghost use Rattle.std.specs.Prelude.{◌≡◌, ◌≤◌, IfOk, IsOk};
ghost use Rattle.api_shelf.specs.Shelf.{AllAreSilent, views};
ghost use Rattle.guest_model.specs.Runs.{start_of};
ghost use Rattle.guest_model.specs.Turns.{MakesWhatIsEnabled};
ghost use Rattle.guest_runner.specs.Book.{IsRun, book_view, identity, new_book};
ghost use Rattle.guest_runner.specs.PlainAnswers.{PlainAnswersFit};
ghost use Rattle.guest_runner.specs.Running.{Gives, IsRunOf, end_line};

use crate::book::{RunBook, Turns};
use crate::gate::Gate;
use crate::locked::{Locked, Naming};
use api_shelf::{ApiDevice, SlotOf};
use event_record::EndLine;
use guest_model::Execution;
use mon_base::NoMemory;
use std::alloc::Global;
use std::marker::Brand;
use std::sync::{Mutex, Wait};
use std::thread;
use std::thread::Threads;

/// Why a run has no end.
#[derive(Drop)]
pub enum RunStop<E, D> {
    /// A device stopped the book, which keeps why.
    Device { book: RunBook<E, D> },
    /// The book is not of what was handed in. It never is.
    Mismatch { book: RunBook<E, D> },
    Memory,
}

/// Runs the program by so many workers, which take turns at its one book, until it ends. A worker that cannot be started is run by
/// the caller. Each passes the gate after each holding of the book.
pub fn run<E: Execution + Send, D: ApiDevice + Send, G: Gate + Sync, R: Threads + Wait + Sync>(
    rt: &R,
    alloc: Global,
    execution: E,
    slots: Vec<SlotOf<D>>,
    workers: u32,
    budget: u64,
    gate: &G,
) -> Result<(RunBook<E, D>, EndLine), RunStop<E, D>>
    requires ready { E.is_ready execution }
    requires start { E.machine execution ≡ start_of (E.program execution) }
    requires makes { MakesWhatIsEnabled (E.program execution) }
    requires plain { PlainAnswersFit (E.program execution) }
    requires silent { AllAreSilent (views D.told D.faults slots.items) }
    requires budget { budget ≤ 1000000000 }
    requires some { 1 ≤ workers }
    requires most { workers ≤ 64 }
    ensures { Gives (book_view E.program E.machine D.told D.faults)
        (identity (new_book (E.program execution) (views D.told D.faults slots.items) budget)) result }
{
    let Ok(book) = RunBook::new(alloc, execution, slots, budget) else {
        return Err(RunStop::Memory);
    };
    let mut book = run_named::<E, D, Brand, G, R>(rt, alloc, book, workers, gate);
    match book.finish(alloc) {
        Err(NoMemory) => Err(RunStop::Memory),
        Ok(None) => Err(RunStop::Device { book }),
        Ok(Some(line)) => Ok((book, line)),
    }
}

/// The workers write the book, which is the one that is named.
fn run_named<
    E: Execution + Send,
    D: ApiDevice + Send,
    L: Naming<D> + Send + Sync,
    G: Gate + Sync,
    R: Threads + Wait + Sync,
>(rt: &R, alloc: Global, book: RunBook<E, D>, workers: u32, gate: &G) -> RunBook<E, D>
    requires told { L.told ≡ D.told }
    requires faults { L.faults ≡ D.faults }
    requires of { IsRunOf L.named (book_view E.program E.machine D.told D.faults book) }
    requires ready { E.is_ready book.execution }
    ensures of { IsRunOf L.named (book_view E.program E.machine D.told D.faults result) }
    ensures ready { E.is_ready result.execution }
{
    let shared = Mutex::new(Locked::<E, D, L>::new(book));
    work_all(rt, alloc, &shared, workers, gate);
    shared.into_inner().into_book()
}

/// Starts the workers, and comes back when each has ended.
fn work_all<
    'x,
    E: Execution + Send,
    D: ApiDevice + Send,
    L: Naming<D> + Send + Sync,
    G: Gate + Sync,
    R: Threads + Wait + Sync,
>(rt: &'x R, alloc: Global, shared: &'x Mutex<Locked<E, D, L>>, workers: u32, gate: &'x G)
    requires told { L.told ≡ D.told }
    requires faults { L.faults ≡ D.faults }
{
    thread::scope(
        thread::scope_env(),
        rt,
        |scope|
            requires told { L.told ≡ D.told }
            requires faults { L.faults ≡ D.faults }
        {
            for worker in 0..workers {
                let started = scope.spawn(
                    move ||
                        requires told { L.told ≡ D.told }
                        requires faults { L.faults ≡ D.faults }
                    { work(rt, alloc, shared, gate, worker) },
                );
                if started.is_err() {
                    work(rt, alloc, shared, gate, worker);
                }
            }
        },
    );
}

/// One worker: it holds the book for some steps, and lets it go, until there is nothing more to do or memory runs out.
fn work<
    E: Execution + Send,
    D: ApiDevice + Send,
    L: Naming<D> + Send + Sync,
    G: Gate + Sync,
    R: Wait,
>(rt: &R, alloc: Global, shared: &Mutex<Locked<E, D, L>>, gate: &G, worker: u32)
    requires told { L.told ≡ D.told }
    requires faults { L.faults ≡ D.faults }
{
    for _ in rt.forever() {
        let turns = shared.lock(rt).hold(alloc, worker);
        gate.pass(worker);
        match turns {
            Turns::Made => {}
            Turns::Over | Turns::Memory => return,
        }
    }
}
