//! The components of two arrays, side by side. (The Java Virtual Machine Specification, sections 4.3.2 and 4.10.1.2.)

ghost use Rattle.std.specs.Prelude.{◌≡◌, Bool, List, option_copied, option_map, ℕ};
ghost use Rattle.bytecode_model.specs.Assigning.{class_name, named, reference_of};
ghost use Rattle.type_lattice.specs.Components.{answered, array_by, both_within, component_by, leaf_by};

use bytecode_model::is_array;

/// What there is to ask of two components, once the brackets that both begin with are gone.
#[derive(Clone, Copy)]
pub enum Compared<'a> {
    /// Nothing: they are the same.
    Same,
    /// Nothing: they are neither the same nor a reference and a class.
    Apart,
    /// How the one, a class or an array, stands to the class that the other is.
    Classes { below: &'a [u8], above: &'a [u8] },
}

/// The items of two arrays, compared. What is no array has nothing in common with one.
pub fn arrays_compared<'a>(from: &'a [u8], to: &'a [u8]) -> Compared<'a>
    ensures { (asked : List ℕ → List ℕ → Bool) → answered asked result ≡ array_by asked from.now to.now }
{
    match both_within(from, to) {
        None => Compared::Apart,
        Some((from, to)) => components_compared(from, to),
    }
}

/// Two components, compared.
pub fn components_compared<'a>(from: &'a [u8], to: &'a [u8]) -> Compared<'a>
    ensures { (asked : List ℕ → List ℕ → Bool) → answered asked result ≡ component_by asked from.now to.now }
{
    let mut from = from;
    let mut to = to;
    while let Some((below, above)) = both_within(from, to) {
        from = below;
        to = above;
    }
    leaves_compared(from, to)
}

/// The same of components that are not both arrays.
fn leaves_compared<'a>(from: &'a [u8], to: &'a [u8]) -> Compared<'a>
    ensures { (asked : List ℕ → List ℕ → Bool) → answered asked result ≡ leaf_by asked from.now to.now }
{
    if from == to {
        return Compared::Same;
    }
    match named(to) {
        None => Compared::Apart,
        Some(above) => {
            match reference_of(from) {
                None => Compared::Apart,
                Some(below) => Compared::Classes { below, above },
            }
        }
    }
}

/// The items of both, where both are arrays.
pub fn both_within<'a>(a: &'a [u8], b: &'a [u8]) -> Option<(&'a [u8], &'a [u8])>
    ensures { option_map (λ r. (r.0.now, r.1.now)) result ≡ both_within a.now b.now }
{
    let [c, x @ ..] = a else {
        return None;
    };
    let [d, y @ ..] = b else {
        return None;
    };
    if *c == b'[' && *d == b'[' {
        return Some((x, y));
    }
    None
}

/// The name of the class or array that a component is, if it is one.
pub fn reference_of<'a>(component: &'a [u8]) -> Option<&'a [u8]>
    ensures { option_copied result ≡ reference_of component.now }
{
    if is_array(component) {
        Some(component)
    } else {
        named(component)
    }
}

/// The name, where it is none of an array.
fn class_name<'a>(name: &'a [u8]) -> Option<&'a [u8]>
    ensures { option_copied result ≡ class_name name.now }
{
    if is_array(name) {
        return None;
    }
    Some(name)
}

/// The name in a component `Lname;`. A class is not named as an array is.
pub fn named<'a>(component: &'a [u8]) -> Option<&'a [u8]>
    ensures { option_copied result ≡ named component.now }
{
    match component {
        [] => None,
        [first, rest @ ..] => {
            if *first == b'L' && !rest.is_empty() && rest[rest.len() - 1] == b';' {
                class_name(&rest[..rest.len() - 1])
            } else {
                None
            }
        }
    }
}
