//! Constants that blocks name, as they are looked for in a pool and added after it.

ghost use Rattle.std.specs.Prelude.{◌≡◌, ◌∷◌, [], nat_eq, IfOk};
ghost use Rattle.std.specs.Cmp.Lexicographic.{pointwise, slice_cmp};
ghost use Rattle.std.specs.Ordering.{nat_cmp, as_partial_cmp};
ghost use Rattle.std.proofs.Common.{rules};
ghost use Rattle.std.specs.Cmp.Rules.{comparing, hashing};
ghost use Rattle.offset_patch.specs.Added.{added_of};

use class_codec::Const;
use mon_base::{Bytes, NoMemory};
use std::alloc::Global;
use std::cmp::Ordering;
use std::hash::{Hash, Hasher};
use std::marker::Model;

/// The text of a constant, which can be hashed. A contract sees the list of its bytes.
#[derive(Drop)]
pub struct Text {
    bytes: Bytes,
}

impl Model for Text {
    ghost use Rattle.std.specs.Prelude.{ℕ, List};

    ghost Value = { List ℕ };

    ghost view = { λ t. t.bytes };
}

impl Text {
    /// The text of these bytes.
    pub fn new(bytes: Bytes) -> Text
        ensures { result ≡ bytes }
    {
        Text { bytes }
    }

    /// The bytes as a slice.
    pub fn as_slice(&self) -> &[u8]
        ensures { result.now ≡ self.now }
    {
        self.bytes.as_slice()
    }
}

impl PartialEq for Text {
    ghost eq = { pointwise nat_eq };

    ghost laws = { Prim.search (comparing, rules) };

    fn eq(&self, other: &Text) -> bool {
        self.bytes == other.bytes
    }
}

impl Eq for Text {
    ghost laws = { Prim.search (comparing, rules) };
}

impl PartialOrd for Text {
    ghost partial_cmp = { as_partial_cmp (slice_cmp nat_cmp) };

    ghost laws = { Prim.search (comparing, rules) };

    fn partial_cmp(&self, other: &Text) -> Option<Ordering> {
        Some(self.cmp(other))
    }
}

impl Ord for Text {
    ghost cmp = { slice_cmp nat_cmp };

    ghost total = { Prim.search (comparing, rules) };

    ghost matches_partial_cmp = { λ x y. Prim.search (comparing, rules) };

    ghost matches_eq = { λ x y. Prim.search (comparing, rules) };

    fn cmp(&self, other: &Text) -> Ordering {
        self.bytes.cmp(&other.bytes)
    }
}

impl Hash for Text {
    ghost hash_input = { λ bytes. bytes ∷ [] };

    ghost respects_eq = { Prim.search (hashing, rules) };

    fn hash<H: Hasher>(&self, state: &mut H) {
        state.write(self.as_slice());
    }
}

/// A constant that is added to a pool. It may name a place that two bytes do not hold: whether all fit is known once all
/// are there.
#[derive(Drop, PartialEq, Eq, PartialOrd, Ord, Hash)]
pub enum Added {
    Text(Text),
    Class(u64),
    NameAndType(u64, u64),
    Field(u64, u64),
    Method(u64, u64),
    Integer(i32),
}

/// The constant as one that is added, if it is of such a kind.
pub fn added_of(alloc: Global, constant: &Const) -> Result<Option<Added>, NoMemory>
    ensures { IfOk result (λ added. added ≡ added_of constant.now) }
{
    match constant {
        Const::Utf8(text) => {
            let bytes = text.copy(alloc)?;
            Ok(Some(Added::Text(Text::new(bytes))))
        }
        Const::Class(name) => Ok(Some(Added::Class(u64::from(*name)))),
        Const::NameAndType(name, desc) => Ok(Some(Added::NameAndType(
            u64::from(*name),
            u64::from(*desc),
        ))),
        Const::Field(class, member) => Ok(Some(Added::Field(
            u64::from(*class),
            u64::from(*member),
        ))),
        Const::Method(class, member) => Ok(Some(Added::Method(
            u64::from(*class),
            u64::from(*member),
        ))),
        Const::Integer(n) => Ok(Some(Added::Integer(*n))),
        _ => Ok(None),
    }
}
