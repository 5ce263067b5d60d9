//! The class files, the listing and the policy that are made from a number.

ghost use Rattle.std.specs.Prelude.{◌≡◌, ◌∷◌, [], ◌<◌, ◌≤◌, ◌^◌, ◌++◌, IfOk, OnOk};
ghost use Rattle.std.specs.List.{AllByRecursion};
ghost use Rattle.bundle_gen.specs.Code.{IsShortCode};
ghost use Rattle.bundle_gen.specs.Draws.{state_after};
ghost use Rattle.bundle_gen.specs.Generated.{
  HasName,
  classes_from,
  files_of,
  generated,
  init_code,
  listing_text,
  main_class,
  main_code,
  main_name,
  policy_text,
  run_code,
  thread_class,
  thread_name,
};
ghost use Rattle.bundle_gen.specs.Sizes.{bytes_of};
ghost use Rattle.class_codec.specs.Fits.{IsEncodable};

use crate::main_class::main_class;
use crate::thread_class::thread_class;
use class_codec::ClassFile;
use mon_base::{Bytes, List, NoMemory};
use std::alloc::Global;

/// A program with what it is checked by.
#[derive(Drop)]
pub struct Bundle {
    /// The classes of the threads in their order, and last the main class.
    pub files: List<ClassFile>,
    /// The text of the listing of their library.
    pub listing: Bytes,
    /// The text of a policy for it.
    pub policy: Bytes,
}

/// The program of this number, with so many classes of threads and so many sites in each.
pub fn generate(alloc: Global, seed: u64, classes: u32, sites: u32) -> Result<Bundle, NoMemory>
    requires some_classes { 1 ≤ classes }
    requires classes { classes ≤ 200 }
    requires some_sites { 1 ≤ sites }
    requires sites { sites ≤ 500 }
    ensures { IfOk result (λ bundle. bundle ≡ generated seed classes sites) }
{
    let listing = listing_text(alloc)?;
    let policy = policy_text(alloc)?;
    let files = files(alloc, seed, classes, sites)?;
    Ok(Bundle {
        files,
        listing,
        policy,
    })
}

/// Each file of such a program can be written as a class file. (Nothing to run: the clause is a law.)
pub fn generated_is_encodable(seed: u64, classes: u32, sites: u32)
    requires classes { classes ≤ 200 }
    requires sites { sites ≤ 500 }
    ensures { AllByRecursion IsEncodable (files_of seed classes sites) }
{}

/// They name their classes. (Nothing to run: the clauses are laws.)
pub fn generated_have_names(index: u32, state: u64, sites: u32, classes: u32)
    ensures thread { HasName (thread_class index state sites) (thread_name index) }
    ensures main { HasName (main_class classes) main_name }
{}

/// The class files of such a program have so few bytes that they can be counted. (Nothing to run: the clause is a law.)
pub fn generated_is_small(seed: u64, classes: u32, sites: u32)
    requires classes { classes ≤ 200 }
    requires sites { sites ≤ 500 }
    ensures { bytes_of (files_of seed classes sites) < 2 ^ 48 }
{}

/// Each code of such a program can be written, and has at most 65,535 bytes. (Nothing to run: the clauses are laws.)
pub fn generated_codes_are_short(state: u64, classes: u32, sites: u32)
    requires classes { classes ≤ 200 }
    requires sites { sites ≤ 500 }
    ensures init { IsShortCode init_code }
    ensures run { IsShortCode (run_code state sites) }
    ensures main { IsShortCode (main_code classes) }
{}

/// The text of the listing.
#[tactic(auto, unfolding(crate::specs::Generated::listing_text))]
fn listing_text(alloc: Global) -> Result<Bytes, NoMemory>
    ensures { IfOk result (λ text. text ≡ listing_text) }
{
    let text =
        "class api/Net extends java/lang/Object\nstatic api/Net send (I)V\nstatic api/Net read ()I\n";
    Bytes::from_slice(alloc, text.as_bytes())
}

/// The text of the policy.
#[tactic(auto, unfolding(crate::specs::Generated::policy_text))]
fn policy_text(alloc: Global) -> Result<Bytes, NoMemory>
    ensures { IfOk result (λ text. text ≡ policy_text) }
{
    let text = "MAXINT 1000000 SCOPE Session SECURITY STATE int n = 0; \
         BEFORE void api.Net.send(int a) PERFORM n <= 999998 && a >= 0 -> { n = n + 1; }\n";
    Bytes::from_slice(alloc, text.as_bytes())
}

/// The class files.
fn files(alloc: Global, seed: u64, classes: u32, sites: u32) -> Result<List<ClassFile>, NoMemory>
    requires classes { classes ≤ 200 }
    requires sites { sites ≤ 500 }
    ensures { IfOk result (λ files. files ≡ files_of seed classes sites) }
{
    let mut files = List::new(alloc);
    put_classes(alloc, &mut files, seed, classes, sites)?;
    files.push(main_class(alloc, classes)?)?;
    Ok(files)
}

/// Appends the classes of the threads.
fn put_classes(
    alloc: Global,
    files: &mut List<ClassFile>,
    seed: u64,
    classes: u32,
    sites: u32,
) -> Result<(), NoMemory>
    requires classes { classes ≤ 200 }
    requires sites { sites ≤ 500 }
    ensures { OnOk result (files.new ≡ files.old ++ classes_from 0 seed sites classes) }
{
    let mut state = seed;
    let mut index: u32 = 0;
    let mut left = classes;
    while left > 0 {
        state = put_class(alloc, files, index, state, sites)?;
        index += 1;
        left -= 1;
    }
    Ok(())
}

/// Appends the class of this index, and gives the state after its draws.
fn put_class(
    alloc: Global,
    files: &mut List<ClassFile>,
    index: u32,
    state: u64,
    sites: u32,
) -> Result<u64, NoMemory>
    requires { sites ≤ 500 }
    ensures is { OnOk result (files.new ≡ files.old ++ thread_class index state sites ∷ []) }
    ensures after { IfOk result (λ after. after ≡ state_after state sites) }
{
    let (file, after) = thread_class(alloc, index, state, sites)?;
    files.push(file)?;
    Ok(after)
}
