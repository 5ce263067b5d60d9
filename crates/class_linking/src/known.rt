//! What the operands of a class were found to name.

ghost use Rattle.std.specs.Prelude.{◌≡◌, List as Items, Ok, IfOk, IfSome};
ghost use Rattle.class_codec.specs.declared.tree.Const.{Const};
ghost use Rattle.class_codec.specs.declared.tree.ClassFile.{ClassFile};
ghost use Rattle.api_listing.specs.declared.types.Listing.{Listing};
ghost use Rattle.class_linking.specs.Operands.{used_at};
ghost use Rattle.class_linking.specs.Known.{AreRemembered};

use bytecode_model::{Target, Use};
use mon_base::{List, NoMemory};
use std::alloc::Global;
use std::marker::Model;

/// How many uses of a constant are kept.
const KEPT_USES: usize = 2;

/// What the constant of this index names, where it is used so.
#[derive(Drop)]
pub struct Named {
    pub index: u16,
    pub how: Use,
    pub target: Target,
}

/// What the operands of a class were found to name, so that few are looked for twice. A contract sees the places, each
/// with nothing or with what was found.
#[derive(Drop)]
pub struct Known {
    places: List<Option<Named>>,
}

impl Model for Known {
    ghost use Rattle.std.specs.Prelude.{List as Items, Option};
    ghost use Rattle.class_linking.specs.declared.known.Named.{Named};

    ghost Value = { Items (Option Named) };

    ghost view = { λ k. k.places };
}

impl Known {
    /// Nothing is known yet of so many constants.
    pub fn new(alloc: Global, constants: usize) -> Result<Known, NoMemory>
        ensures { IfOk result (λ known.
            (files : Items ClassFile) (listing : Listing) (pool : Items Const) → AreRemembered files listing pool known) }
    {
        let count = constants.saturating_mul(KEPT_USES);
        let mut places = Vec::with_capacity(alloc, count)?;
        for _ in 0..count {
            places.push(None)?;
        }
        Ok(Known {
            places: List::from_vec(places),
        })
    }

    /// What the constant was found to name, where it is used so.
    pub fn find(&self, index: u16, how: Use) -> Option<&Target>
        ensures { (files : Items ClassFile) (listing : Listing) (pool : Items Const) → AreRemembered files listing pool self.now
            → IfSome result (λ target. used_at files listing pool how index ≡ Ok target.now) }
    {
        match self.places.as_slice().get(place_of(index, how)) {
            Some(Some(named)) => {
                if named.index == index && named.how == how {
                    Some(&named.target)
                } else {
                    None
                }
            }
            _ => None,
        }
    }

    /// Keeps what the constant names, in the place of what was kept there.
    pub fn keep(&mut self, named: Named)
        ensures { (files : Items ClassFile) (listing : Listing) (pool : Items Const) → AreRemembered files listing pool self.old
            → used_at files listing pool named.how named.index ≡ Ok named.target → AreRemembered files listing pool self.new }
    {
        let place = place_of(named.index, named.how);
        if place < self.places.len() {
            drop(self.places.replace(place, Some(named)));
        }
    }
}

/// The place of such a use of the constant: a field that is read has another than one that is written.
fn place_of(index: u16, how: Use) -> usize {
    usize::from(index) * KEPT_USES + usize::from(is_second(how))
}

/// Whether it is kept after the other use of its constant.
fn is_second(how: Use) -> bool {
    match how {
        Use::Field { is_static, writes } => writes,
        Use::New => true,
        _ => false,
    }
}
