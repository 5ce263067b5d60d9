//! The book under the lock of its workers.

ghost use Rattle.std.specs.Prelude.{◌≡◌};
ghost use Rattle.guest_runner.specs.Advancing.{Came};
ghost use Rattle.guest_runner.specs.Book.{book_view};
ghost use Rattle.guest_runner.specs.Running.{IsRunOf};

use crate::book::{RunBook, Turns};
use api_shelf::ApiDevice;
use guest_model::Execution;
use std::alloc::Global;
use std::marker::{Brand, Model, PhantomData};

/// How many steps a worker makes while it holds the book.
const STEPS: u32 = 64;

/// What was handed in: each run picks it. What its devices tell and count is named beside it.
pub trait Naming<D> {
    ghost use Rattle.std.specs.Prelude.{ℕ, Option};
    ghost use Rattle.api_shelf.specs.Telling.{Log};
    ghost use Rattle.guest_runner.specs.Book.{Identity};

    ghost told: { D → Option Log };

    ghost faults: { D → ℕ };

    ghost named: { Identity };
}

impl<D> Naming<D> for Brand {
    ghost use Rattle.std.specs.Prelude.{[], None};

    ghost told = { λ device. None };

    ghost faults = { λ device. 0 };

    ghost named = { record {
      program = record {
        classes = [];
        listing = record { classes = []; methods = []; fields = [] };
        literals = [];
        main_class = 0;
        main_method = 0;
      };
      budget = 0;
      classes = [];
      counts = [];
    } };
}

/// A book of the run that is named, whoever wrote it.
#[derive(Drop)]
pub struct Locked<E: Execution, D, L: Naming<D>> {
    book: RunBook<E, D>,
    of: PhantomData<L>,
}

impl<E: Execution, D, L: Naming<D>> Model for Locked<E, D, L> {
    ghost use Rattle.guest_runner.specs.declared.book.RunBook.{RunBook as Booked};
    ghost use Rattle.guest_runner.specs.Book.{book_view};
    ghost use Rattle.guest_runner.specs.Running.{IsRunOf};

    ghost Value = { Booked E D };

    ghost view = { λ l. l.book };

    ghost invariant = { λ l. IsRunOf L.named (book_view E.program E.machine L.told L.faults l.book) × E.is_ready l.book.execution };
}

impl<E: Execution, D: ApiDevice, L: Naming<D>> Locked<E, D, L> {
    /// This book, under a lock.
    pub fn new(book: RunBook<E, D>) -> Locked<E, D, L>
        requires told { L.told ≡ D.told }
        requires faults { L.faults ≡ D.faults }
        requires of { IsRunOf L.named (book_view E.program E.machine D.told D.faults book) }
        requires ready { E.is_ready book.execution }
    {
        Locked {
            book,
            of: PhantomData,
        }
    }

    /// The book. It takes no memory.
    pub fn into_book(self) -> RunBook<E, D>
        requires told { L.told ≡ D.told }
        requires faults { L.faults ≡ D.faults }
        ensures of { IsRunOf L.named (book_view E.program E.machine D.told D.faults result) }
        ensures ready { E.is_ready result.execution }
    {
        let Locked { book, of: _ } = self;
        book
    }

    /// Makes 64 steps, the first of the thread with the worker's number where it can; or as many as there may be.
    pub fn hold(&mut self, alloc: Global, worker: u32) -> Turns
        requires told { L.told ≡ D.told }
        requires faults { L.faults ≡ D.faults }
        ensures came { Came 64 (book_view E.program E.machine D.told D.faults self.old)
            (book_view E.program E.machine D.told D.faults self.new) result }
    {
        self.book.advance_some(alloc, worker, STEPS)
    }
}
