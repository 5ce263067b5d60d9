//! The tables that are kept beside a program, each made once.

ghost use Rattle.std.specs.Prelude.{IfOk};
ghost use Rattle.guest_model.specs.Ready.{IsReady};
ghost use Rattle.guest_tables.specs.Tables.{AreTables};

use crate::fields::{Places, places_of};
use crate::library::{Library, library_of};
use crate::methods::{MethodTables, methods_of};
use crate::searched::rows_of;
use mon_base::{List, NoMemory};
use std::alloc::Global;
use type_lattice::Indexed;

/// What is told once of the classes of a program, of its methods, of its fields and of the listing.
#[derive(Drop)]
pub struct Tables {
    /// Of each class that names interfaces itself the places of those in which its members are looked for.
    pub rows: List<List<u32>>,
    pub methods: MethodTables,
    pub fields: Places,
    pub library: Library,
}

/// The tables of the program.
pub fn tables_of(alloc: Global, program: &Indexed) -> Result<Tables, NoMemory>
    requires { IsReady program.now }
    ensures { IfOk result (λ tables. AreTables program.now tables) }
{
    let rows = rows_of(alloc, program)?;
    let methods = methods_of(alloc, program.program())?;
    let fields = places_of(alloc, program)?;
    let library = library_of(alloc, &program.program().listing)?;
    Ok(Tables {
        rows,
        methods,
        fields,
        library,
    })
}
