//! Linked programs that are ready to run, with tables that are made once.

ghost use Rattle.std.specs.Prelude.{IfOk, length, option_and_then, option_copied, option_map, slice_get, ◌≡◌};
ghost use Rattle.api_listing.specs.Listing.{is_known};
ghost use Rattle.api_listing.specs.declared.types.ListedMethod.{ListedMethod};
ghost use Rattle.bytecode_model.specs.declared.program.Method.{Method};
ghost use Rattle.bytecode_model.specs.Classes.{classes_of, is_below, is_interface};
ghost use Rattle.bytecode_model.specs.declared.program.LinkedClass.{LinkedClass};
ghost use Rattle.guest_model.specs.Answering.{is_listed_class};
ghost use Rattle.guest_model.specs.Calling.{desc_named};
ghost use Rattle.guest_model.specs.Calls.{arity, name_at};
ghost use Rattle.guest_model.specs.Finding.{declared_in, given_index};
ghost use Rattle.guest_model.specs.Kinds.{implements};
ghost use Rattle.guest_model.specs.Layout.{class_given, place_of_field};
ghost use Rattle.guest_model.specs.Places.{class_index, method_at};
ghost use Rattle.guest_model.specs.Ready.{IsReady};
ghost use Rattle.guest_tables.specs.Library.{gives};

use crate::fields::count_before;
use crate::given::{class_given, class_index, given_index, listed_place};
use crate::items::{copy_at, item_at};
use crate::library::{ListedResult, truth_at};
use crate::methods::method_in;
use crate::searched::is_searched;
use crate::tables::{Tables, tables_of};
use bytecode_model::{LinkedClass, Method, Program, Target};
use guest_model::arity_of_row;
use mon_base::NoMemory;
use std::alloc::Global;
use std::marker::Model;
use type_lattice::{Indexed, is_below, is_interface};

/// A linked program that is ready to run. A contract sees the program.
#[derive(Drop)]
pub struct Guest {
    program: Indexed,
    tables: Tables,
}

impl Model for Guest {
    ghost use Rattle.bytecode_model.specs.declared.program.Program.{Program};
    ghost use Rattle.guest_tables.specs.Tables.{IsGuest};

    ghost Value = { Program };

    ghost view = { λ g. g.program };

    ghost invariant = { λ g. IsGuest g.program g.tables };
}

impl Guest {
    /// The program, with its tables.
    pub fn new(alloc: Global, program: Indexed) -> Result<Guest, NoMemory>
        requires { IsReady program }
        ensures { IfOk result (λ guest. guest ≡ program) }
    {
        let tables = tables_of(alloc, &program)?;
        Ok(Guest { program, tables })
    }

    /// The program.
    pub fn program(&self) -> &Program
        ensures program { result.now ≡ self.now }
        ensures ready { IsReady self.now }
    {
        self.program.program()
    }

    /// The program with the index of its classes.
    pub fn indexed(&self) -> &Indexed
        ensures program { result.now ≡ self.now }
        ensures ready { IsReady self.now }
    {
        &self.program
    }

    /// The given class with this index.
    pub fn class(&self, class: u32) -> Option<&LinkedClass>
        ensures { option_copied result ≡ slice_get self.now.classes class }
    {
        self.program().classes.as_slice().get(class as usize)
    }

    /// How many given classes there are.
    pub fn count(&self) -> usize
        ensures { result ≡ length self.now.classes }
    {
        self.program().classes.len()
    }

    /// The index of the given class with the name.
    pub fn given_at(&self, name: &[u8]) -> Option<u32>
        ensures { result ≡ given_index self.now name.now }
    {
        given_index(&self.program, name)
    }

    /// The given class with the name.
    pub fn class_given(&self, name: &[u8]) -> Option<&LinkedClass>
        ensures { option_copied result ≡ class_given self.now name.now }
    {
        class_given(&self.program, name)
    }

    /// The index, in the given class with this index, of the first method of the name and descriptor that it declares.
    pub fn declared(&self, class: u32, name: &[u8], desc: &[u8]) -> Option<u32>
        ensures { result ≡ option_and_then (declared_in name.now desc.now) (slice_get self.now.classes class) }
    {
        match item_at(&self.tables.methods.named, class) {
            Some(methods) => method_in(methods, name, desc),
            None => None,
        }
    }

    /// The index of the class among those of the listing and the given ones after them.
    pub fn class_index(&self, name: &[u8]) -> Option<u32>
        ensures { result ≡ class_index self.now name.now }
    {
        class_index(&self.program, name)
    }

    /// The place in objects of the field with this index in its class, by the index of that among the given ones.
    pub fn place_of_field(&self, class: u32, field: u32) -> Option<usize>
        ensures { result ≡ option_map (λ (c : LinkedClass). place_of_field self.now c field) (slice_get self.now.classes class) }
    {
        let of = self.class(class)?;
        let begin = copy_at(&self.tables.fields.begins, class)?;
        let counts = item_at(&self.tables.fields.counts, class)?;
        let before = count_before(counts.as_slice(), of.file.fields.as_slice(), field as usize);
        Some(begin as usize + before as usize)
    }

    /// The method with these indices.
    pub fn method(&self, class: u32, method: u32) -> Option<&Method>
        ensures { option_copied result ≡ method_at self.now class method }
    {
        self.class(class)?.methods.as_slice().get(method as usize)
    }

    /// How many arguments the method takes that is named.
    pub fn arity(&self, target: &Target) -> Option<u8>
        ensures { result ≡ option_map arity (desc_named self.now target.now) }
    {
        match target {
            Target::ApiMethod(index) => self.listed_arity(*index),
            Target::Builtin(index) => arity_of_row(*index),
            Target::Method { class, method } => self.given_arity(*class, *method),
            Target::None
            | Target::Field { .. }
            | Target::ApiField(_)
            | Target::ClassName(_)
            | Target::Number(_)
            | Target::Literal(_) => None,
        }
    }

    /// The same of a listed method.
    fn listed_arity(&self, index: u32) -> Option<u8>
        ensures { result ≡ option_map (λ (m : ListedMethod). arity m.id.desc) (slice_get self.now.listing.methods index) }
    {
        copy_at(&self.tables.library.arities, index)
    }

    /// The same of a given one.
    fn given_arity(&self, class: u32, method: u32) -> Option<u8>
        ensures { result ≡ option_map (λ (m : Method). arity m.desc) (method_at self.now class method) }
    {
        match item_at(&self.tables.methods.arities, class) {
            Some(counts) => copy_at(counts, method),
            None => None,
        }
    }

    /// What the listed method with this index gives.
    pub fn gives(&self, method: u32) -> Option<&ListedResult>
        ensures { option_copied result ≡ option_map (λ (m : ListedMethod). gives m.id.desc) (slice_get self.now.listing.methods method) }
    {
        item_at(&self.tables.library.gives, method)
    }

    /// Whether the class is one of the listing, or built in.
    pub fn is_listed(&self, name: &[u8]) -> bool
        ensures { result ≡ is_known self.now.listing.classes name.now }
    {
        match listed_place(&self.program, name) {
            Some(_) => true,
            None => false,
        }
    }

    /// Whether an answer may make an object of the class: it is one of the listing, none of the built-in ones, and no interface.
    pub fn is_fresh(&self, name: &[u8]) -> bool
        ensures { result ≡ is_listed_class self.now name.now }
    {
        match listed_place(&self.program, name) {
            Some(place) => truth_at(&self.tables.library.fresh, place),
            None => false,
        }
    }

    /// Whether the class is of the other name, or one of its superclasses is.
    pub fn is_below(&self, class: &[u8], above: &[u8]) -> bool
        ensures { result ≡ is_below self.now class.now above.now }
    {
        is_below(&self.program, class, above)
    }

    /// Whether the class is an interface, of the listing or given.
    pub fn is_interface(&self, name: &[u8]) -> bool
        ensures { result ≡ is_interface self.now name.now }
    {
        is_interface(&self.program, name)
    }

    /// The name of the class in the place, or none.
    pub fn class_name(&self, place: u32) -> &[u8]
        ensures { result.now ≡ name_at (classes_of self.now) place }
    {
        match self.program.classes().get(place as usize) {
            Some(class) => class.name.as_slice(),
            None => b"".as_slice(),
        }
    }

    /// Whether the other is an interface that the class has, itself or by what is above it.
    pub fn implements(&self, name: &[u8], other: &[u8]) -> bool
        ensures { result ≡ implements self.now name.now other.now }
    {
        match self.class_index(other) {
            Some(place) => {
                let rows = &self.tables.rows;
                self.is_interface(other) && is_searched(&self.program, rows, name, place)
            }
            None => false,
        }
    }
}
