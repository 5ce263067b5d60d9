//! The string constants of a program, each text once.

ghost use Rattle.std.specs.Prelude.{◌≡◌, ◌≤◌, IfOk, OnOk, length, option_copied};
ghost use Rattle.std.specs.List.{AllByRecursion, fold, flat_map, filter_map};
ghost use Rattle.class_codec.specs.Fits.{IsEncodable};
ghost use Rattle.bytecode_model.specs.Places.{NamesPlaced};
ghost use Rattle.bytecode_model.specs.Operands.{literals_of, strings_in, place_of, text_of_string};
ghost use Rattle.bytecode_model.specs.SearchOrder.{with_name};

use crate::by_name::{ByName, note, noted};
use class_codec::{ClassFile, Const, utf8_at};
use mon_base::{Bytes, List, NoMemory};
use std::alloc::Global;
use std::collections::BTreeMap;
use std::marker::Model;

/// Texts, each of which is found without a search through the list. A contract sees the list.
#[derive(Drop)]
pub struct Literals {
    texts: List<Bytes>,
    places: ByName<usize>,
}

impl Model for Literals {
    ghost use Rattle.std.specs.Prelude.{ℕ, List};
    ghost use Rattle.bytecode_model.specs.Places.{AreTexts};

    ghost Value = { List (List ℕ) };

    ghost view = { λ l. l.texts };

    ghost invariant = { λ l. AreTexts l.places l.texts };
}

impl Literals {
    /// The texts of the string constants of the files, in order.
    #[tactic(auto, using(crate::proofs::Texts::literals_few))]
    pub fn new(alloc: Global, files: &[ClassFile]) -> Result<Literals, NoMemory>
        requires count { length files.now ≤ 1001 }
        requires fits { AllByRecursion IsEncodable files.now }
        ensures { IfOk result (λ literals. literals ≡ literals_of files.now) }
    {
        let mut texts = List::new(alloc);
        let mut places = BTreeMap::new(alloc);
        add_files(alloc, &mut texts, &mut places, files)?;
        Ok(Literals { texts, places })
    }

    /// The place of a text.
    pub fn place(&self, text: &Bytes) -> u32
        ensures { result ≡ place_of self.now text.now }
    {
        match noted(&self.places, text.as_slice()) {
            Some(place) => place as u32,
            None => 0,
        }
    }

    /// The texts as a list.
    pub fn into_list(self) -> List<Bytes>
        ensures { result ≡ self }
    {
        let Literals { texts, places } = self;
        texts
    }
}

fn add_files(
    alloc: Global,
    texts: &mut List<Bytes>,
    places: &mut ByName<usize>,
    files: &[ClassFile],
) -> Result<(), NoMemory>
    requires { NamesPlaced places.old texts.old }
    ensures { OnOk result (NamesPlaced places.new texts.new × (texts.new ≡ fold with_name texts.old (flat_map strings_in files.now))) }
{
    let mut left = files;
    while let [file, rest @ ..] = left {
        let pool = file.pool.as_slice();
        add_pool(alloc, texts, places, pool, pool)?;
        left = rest;
    }
    Ok(())
}

/// Adds the texts of the string constants among some constants of a pool.
fn add_pool(
    alloc: Global,
    texts: &mut List<Bytes>,
    places: &mut ByName<usize>,
    pool: &[Const],
    constants: &[Const],
) -> Result<(), NoMemory>
    requires { NamesPlaced places.old texts.old }
    ensures { OnOk result (NamesPlaced places.new texts.new
        × (texts.new ≡ fold with_name texts.old (filter_map (text_of_string pool.now) constants.now))) }
{
    let mut left = constants;
    while let [constant, rest @ ..] = left {
        if let Some(text) = text_of_string(pool, constant) {
            add_text(alloc, texts, places, text)?;
        }
        left = rest;
    }
    Ok(())
}

fn text_of_string<'a>(pool: &'a [Const], constant: &Const) -> Option<&'a Bytes>
    ensures { option_copied result ≡ text_of_string pool.now constant.now }
{
    match constant {
        Const::Str(text) => utf8_at(pool, *text),
        _ => None,
    }
}

/// Adds the text, if it is new.
fn add_text(
    alloc: Global,
    texts: &mut List<Bytes>,
    places: &mut ByName<usize>,
    text: &Bytes,
) -> Result<(), NoMemory>
    requires { NamesPlaced places.old texts.old }
    ensures { OnOk result (NamesPlaced places.new texts.new × (texts.new ≡ with_name texts.old text.now)) }
{
    if !places.contains_key(text.as_slice()) {
        note(alloc, places, text, texts.len())?;
        texts.push(text.copy(alloc)?)?;
    }
    Ok(())
}
