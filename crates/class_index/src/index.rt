//! What files and a listing declare, in maps that are made once.

ghost use Rattle.std.specs.Prelude.{◌≡◌, ◌≤◌, ◌&&◌, ◌++◌, ◌∷◌, [], ℕ, List, false, not, length, option_copied, IfOk, OnOk};
ghost use Rattle.std.specs.List.{AllByRecursion, filter};
ghost use Rattle.mon_base.specs.declared.method.MethodId.{MethodId};
ghost use Rattle.class_codec.specs.Fits.{IsEncodable};
ghost use Rattle.api_listing.specs.Listing.{has_method, IsFew};
ghost use Rattle.api_listing.specs.Seen.{has_id, has_name};
ghost use Rattle.bytecode_model.specs.Heads.{heads_of, all_classes};
ghost use Rattle.api_listing.specs.Nearest.{names_of};
ghost use Rattle.bytecode_model.specs.LeftMethods.{given_interface, is_open_to_all, offers, offers_at};
ghost use Rattle.bytecode_model.specs.Places.{ClassesPlaced};
ghost use Rattle.bytecode_model.specs.SearchOrder.{search_order, superclasses};
ghost use Rattle.class_index.specs.Asking.{AreAsked, AsksNothing, IsUnasked};
ghost use Rattle.class_index.specs.InterfaceFields.{AreInterfaceFields};
ghost use Rattle.bytecode_model.specs.Members.{field_of, fields_declared, method_of, methods_declared};
ghost use Rattle.bytecode_model.specs.Conditions.{is_of_library};
ghost use Rattle.bytecode_model.specs.Operands.{known_in, literals_of, place_of};
ghost use Rattle.class_index.specs.Index.{found_in, AreFirst, declared_of};
ghost use Rattle.class_index.specs.Library.{is_owner, AreShared, OverridesAs};
ghost use Rattle.class_index.specs.Nearest.{AreVersions};

use crate::asking::{Asked, add_asked, any_set, is_set_at};
use crate::classes::Classes;
use crate::declared::{first_declared, listed_methods, owners_of};
use crate::interface_fields::interface_fields;
use crate::library::{Shared, is_of_library, owners_above, owners_among, shared_of};
use crate::members::{field_of, method_of};
use crate::nearest::{Nearest, nearest_of};
use crate::search::{search_order, superclasses};
use api_listing::{ListedClass, ListedMethod, Listing};
use bytecode_model::{
    ByName, Found, Literals, MemberKind, Target, class_places, is_interface, is_public, noted,
};
use class_codec::ClassFile;
use mon_base::{Bytes, List, MethodId, NoMemory};
use std::alloc::Global;
use std::collections::{BTreeMap, BTreeSet};
use std::marker::Model;

/// Class files and a listing, in which classes, members and literals are found by their names. A contract sees the
/// files and the listing.
#[derive(Drop)]
pub struct Index<'a> {
    files: &'a [ClassFile],
    listing: &'a Listing,
    classes: &'a Classes,
    literals: &'a Literals,
    members: Members,
    library: Library,
    given: Given,
}

/// Where the files' classes stand, and what interfaces among them ask of the classes of the library above them.
#[derive(Drop)]
struct Given {
    places: ByName<usize>,
    asked: Asked,
}

/// What is declared, and which class declares it nearest.
#[derive(Drop)]
struct Members {
    methods: BTreeMap<MethodId, Found>,
    fields: BTreeMap<MethodId, Found>,
    near_methods: Nearest,
    near_fields: Nearest,
    of_interfaces: BTreeSet<MethodId>,
}

/// What the library has.
#[derive(Drop)]
struct Library {
    methods: BTreeSet<MethodId>,
    owners: BTreeSet<Bytes>,
    shared: Shared,
}

impl<'a> Model for Index<'a> {
    ghost use Rattle.class_index.specs.Index.{Given, IsIndex};

    ghost Value = { Given };

    ghost view = { λ i. record { files = i.files.now; listing = i.listing.now } };

    ghost invariant = { λ i. IsIndex i.files.now i.listing.now i.classes.now i.members.methods i.members.fields
        i.members.near_methods i.members.near_fields i.members.of_interfaces i.library.methods i.library.owners i.library.shared
        i.given.places i.given.asked i.literals.now };
}

impl<'a> Index<'a> {
    /// The index of the files and the listing, with what the files say of their classes, all classes, and the literals of
    /// the files.
    pub fn new(
        alloc: Global,
        files: &'a [ClassFile],
        listing: &'a Listing,
        heads: &[ListedClass],
        classes: &'a Classes,
        literals: &'a Literals,
    ) -> Result<Index<'a>, NoMemory>
        requires count { length files.now ≤ 1001 }
        requires fits { AllByRecursion IsEncodable files.now }
        requires heads { heads.now ≡ heads_of files.now }
        requires classes { classes.now ≡ all_classes listing.now files.now }
        requires literals { literals.now ≡ literals_of files.now }
        requires listed { IsFew listing.now }
        ensures { IfOk result (λ index. index ≡ record { files = files.now; listing = listing.now }) }
    {
        let library = library_of(alloc, classes, heads, listing.methods.as_slice())?;
        let members = members_of(alloc, classes, files, listing)?;
        let given = given_of(alloc, classes, files, heads, listing, &library)?;
        Ok(Index {
            files,
            listing,
            classes,
            literals,
            members,
            library,
            given,
        })
    }

    /// Whether a file or the listing has the class.
    pub fn knows(&self, name: &Bytes) -> bool
        ensures { result ≡ known_in self.now.files self.now.listing name.now }
    {
        self.classes.has(name)
    }

    /// Those of the classes in which a member of the class is looked for that may have methods of the library.
    pub fn library_above(&self, alloc: Global, name: &Bytes) -> Result<List<Bytes>, NoMemory>
        ensures { IfOk result (λ above.
            OverridesAs self.now.listing above (search_order (all_classes self.now.listing self.now.files) name.now)) }
    {
        let above = owners_above(
            alloc,
            self.classes,
            &self.library.owners,
            &self.library.shared,
            name,
        )?;
        Ok(above)
    }

    /// The method that a class has: its own, or the nearest above it.
    pub fn method_of(&self, alloc: Global, id: &MethodId) -> Result<Option<Found>, NoMemory>
        ensures { IfOk result (λ found. found ≡ method_of self.now.files self.now.listing id.now) }
    {
        let members = &self.members;
        let found = method_of(
            alloc,
            self.classes,
            &members.methods,
            &members.near_methods,
            id,
        )?;
        Ok(found)
    }

    /// The field that a class has: its own, or the nearest above it.
    pub fn field_of(&self, alloc: Global, id: &MethodId) -> Result<Option<Found>, NoMemory>
        ensures { IfOk result (λ found. found ≡ field_of self.now.files self.now.listing id.now) }
    {
        let members = &self.members;
        let found = field_of(
            alloc,
            self.classes,
            &members.fields,
            &members.near_fields,
            &members.of_interfaces,
            id,
        )?;
        Ok(found)
    }

    /// The classes in which a method of the class is looked for.
    pub fn search_order(&self, alloc: Global, name: &Bytes) -> Result<List<Bytes>, NoMemory>
        ensures { IfOk result (λ order. order ≡ search_order (all_classes self.now.listing self.now.files) name.now) }
    {
        let order = search_order(alloc, self.classes, name)?;
        Ok(order)
    }

    /// The class and its superclasses.
    pub fn superclasses(&self, alloc: Global, name: &Bytes) -> Result<List<Bytes>, NoMemory>
        ensures { IfOk result (λ names. names ≡ names_of (superclasses (all_classes self.now.listing self.now.files) name.now)) }
    {
        let names = superclasses(alloc, self.classes, name)?;
        Ok(names)
    }

    /// The file of the class of this name, where it is an interface.
    pub fn given_interface(&self, name: &Bytes) -> Option<&'a ClassFile>
        ensures { option_copied result ≡ given_interface self.now.files name.now }
    {
        let place = noted(&self.given.places, name.as_slice())?;
        let file = self.files.get(place)?;
        if is_interface(file.flags) {
            Some(file)
        } else {
            None
        }
    }

    /// Whether a given class that is no interface declares the method, in this very class, as a public one of objects.
    pub fn offers(&self, id: &MethodId) -> bool
        ensures { result ≡ offers self.now.files self.now.listing id.now }
    {
        match self.members.methods.get(id) {
            Some(found) => !found.is_static && is_open_to_all(self.files, &found.target),
            None => false,
        }
    }

    /// Whether a given interface may ask for a method that the library has in this class.
    pub fn may_be_asked(&self, class: &Bytes) -> bool
        ensures { result ≡ false → IsUnasked self.now.files self.now.listing class.now }
    {
        match self.given.asked.get(class) {
            Some(flags) => any_set(flags.as_slice()),
            None => true,
        }
    }

    /// Whether the given interface of this name, if there is one, may ask for a method that the library has in the class.
    pub fn may_ask(&self, interface: &Bytes, class: &Bytes) -> bool
        ensures { result ≡ false → AsksNothing self.now.files self.now.listing interface.now class.now }
    {
        match self.given.asked.get(class) {
            Some(flags) => is_set_at(
                flags.as_slice(),
                noted(&self.given.places, interface.as_slice()),
            ),
            None => true,
        }
    }

    /// Those of the classes that may have methods of the library.
    pub fn library_among(&self, alloc: Global, classes: &[Bytes]) -> Result<List<Bytes>, NoMemory>
        ensures { IfOk result (λ some. OverridesAs self.now.listing some classes.now) }
    {
        let some = owners_among(alloc, &self.library.owners, classes)?;
        Ok(some)
    }

    /// Whether the library declares the method in this very class. That a Thread or a Runnable runs counts for nothing.
    pub fn is_of_library(&self, id: &MethodId) -> bool
        ensures { result ≡ is_of_library self.now.listing id.now }
    {
        is_of_library(self.listing, &self.library.methods, id)
    }

    /// The place of a text among the literals.
    pub fn literal(&self, text: &Bytes) -> u32
        ensures { result ≡ place_of (literals_of self.now.files) text.now }
    {
        self.literals.place(text)
    }
}

/// What the files and the listing declare.
fn members_of(
    alloc: Global,
    classes: &Classes,
    files: &[ClassFile],
    listing: &Listing,
) -> Result<Members, NoMemory>
    requires count { length files.now ≤ 1001 }
    requires fits { AllByRecursion IsEncodable files.now }
    requires listed { IsFew listing.now }
    ensures methods { IfOk result (λ members. AreFirst (methods_declared files.now listing.now) members.methods) }
    ensures fields { IfOk result (λ members. AreFirst (fields_declared files.now listing.now) members.fields) }
    ensures near_methods { IfOk result (λ members.
        AreVersions (found_in members.methods) members.near_methods.numbers classes.now members.near_methods.versions) }
    ensures near_fields { IfOk result (λ members.
        AreVersions (found_in members.fields) members.near_fields.numbers classes.now members.near_fields.versions) }
    ensures of_interfaces { IfOk result (λ members. AreInterfaceFields members.of_interfaces classes.now (found_in members.fields)) }
{
    let (methods, near_methods) = known_of(alloc, classes, MemberKind::Method, files, listing)?;
    let (fields, near_fields) = known_of(alloc, classes, MemberKind::Field, files, listing)?;
    let of_interfaces = interface_fields(alloc, classes, &fields)?;
    Ok(Members {
        methods,
        fields,
        near_methods,
        near_fields,
        of_interfaces,
    })
}

/// What the methods, or the fields, that are declared are found by, and which class declares each nearest.
fn known_of(
    alloc: Global,
    classes: &Classes,
    kind: MemberKind,
    files: &[ClassFile],
    listing: &Listing,
) -> Result<(BTreeMap<MethodId, Found>, Nearest), NoMemory>
    requires count { length files.now ≤ 1001 }
    requires fits { AllByRecursion IsEncodable files.now }
    requires listed { IsFew listing.now }
    ensures first { IfOk result (λ known. AreFirst (declared_of kind files.now listing.now) known.0) }
    ensures near { IfOk result (λ known. AreVersions (found_in known.0) known.1.numbers classes.now known.1.versions) }
{
    let found = first_declared(alloc, kind, files, listing)?;
    let near = nearest_of(alloc, classes, &found, kind, files)?;
    Ok((found, near))
}

/// What the listing gives the library, and which classes above given ones may have of it.
fn library_of(
    alloc: Global,
    classes: &Classes,
    given: &[ListedClass],
    listed: &[ListedMethod],
) -> Result<Library, NoMemory>
    ensures methods { IfOk result (λ library. (q : MethodId) → has_id library.methods q ≡ has_method listed.now q) }
    ensures owners { IfOk result (λ library. (q : List ℕ) → has_name library.owners q ≡ is_owner listed.now q) }
    ensures shared { IfOk result (λ library. AreShared library.owners classes.now library.shared) }
{
    let methods = listed_methods(alloc, listed)?;
    let owners = owners_of(alloc, listed)?;
    let shared = shared_of(alloc, classes, &owners, given)?;
    Ok(Library {
        methods,
        owners,
        shared,
    })
}

/// Where the classes of the files stand, and what interfaces among them ask of the classes of the library above them.
fn given_of(
    alloc: Global,
    classes: &Classes,
    files: &[ClassFile],
    heads: &[ListedClass],
    listing: &Listing,
    library: &Library,
) -> Result<Given, NoMemory>
    requires heads { heads.now ≡ heads_of files.now }
    requires methods { (q : MethodId) → has_id library.now.methods q ≡ has_method listing.now.methods q }
    requires shared { AreShared library.now.owners classes.now library.now.shared }
    ensures places { IfOk result (λ given. ClassesPlaced given.places (heads_of files.now)) }
    ensures asked { IfOk result (λ given. AreAsked files.now listing.now given.asked) }
{
    let places = class_places(alloc, heads)?;
    let asked = asked_above(alloc, classes, files, heads, listing, library)?;
    Ok(Given { places, asked })
}

/// What interfaces among the files ask of the classes of the library above these classes.
fn asked_above(
    alloc: Global,
    classes: &Classes,
    files: &[ClassFile],
    given: &[ListedClass],
    listing: &Listing,
    library: &Library,
) -> Result<Asked, NoMemory>
    requires methods { (q : MethodId) → has_id library.now.methods q ≡ has_method listing.now.methods q }
    requires shared { AreShared library.now.owners classes.now library.now.shared }
    ensures { IfOk result (AreAsked files.now listing.now) }
{
    let (owners, shared) = (&library.owners, &library.shared);
    let mut asked = BTreeMap::new(alloc);
    for class in given {
        let above = owners_above(alloc, classes, owners, shared, &class.name)?;
        let names = above.as_slice();
        add_asked(alloc, files, listing, &library.methods, &mut asked, names)?;
    }
    Ok(asked)
}

/// Whether the target is a public method of objects, of a class of the files that is no interface.
fn is_open_to_all(files: &[ClassFile], target: &Target) -> bool
    ensures { result ≡ is_open_to_all files.now target.now }
{
    match target {
        Target::Method { class, method } => match files.get(*class as usize) {
            Some(file) => offers_at(file, *method as usize),
            None => false,
        },
        _ => false,
    }
}

fn offers_at(file: &ClassFile, index: usize) -> bool
    ensures { result ≡ offers_at file.now index }
{
    match file.methods.as_slice().get(index) {
        Some(method) => is_public(method.flags) && !is_interface(file.flags),
        None => false,
    }
}
