//! Persistent arrays, which share what they have in common. An array is a root: at depth 0 that is its one item, and else
//! the place of two arrays of half the size, which have the items of even and of odd numbers.

ghost use Rattle.std.specs.Prelude.{◌≡◌, ◌≤◌, ◌^◌, IfOk, OnOk};
ghost use Rattle.mon_base.specs.Persistent.{half_of, item_at, with_half, Keeps, Puts, PutsEach};

use crate::list::List;
use crate::memory::NoMemory;

/// Two arrays, of the items of even and of odd numbers.
#[derive(Clone, Copy)]
pub struct Halves {
    pub even: usize,
    pub odd: usize,
}

/// How often so many items can be halved until one is left.
pub fn depth_of(count: usize) -> usize
    ensures { count ≤ 2 ^ result }
{
    let mut size: usize = 1;
    for depth in 0..63 {
        if count <= size {
            return depth;
        }
        let Some(double) = size.checked_mul(2) else {
            return 64;
        };
        size = double;
    }
    64
}

/// The item of this number.
pub fn item_at(nodes: &[Halves], depth: usize, root: usize, number: usize) -> Option<usize>
    ensures { result ≡ item_at nodes.now depth root number }
{
    let mut root = root;
    let mut number = number;
    for _ in 0..depth {
        let halves = nodes.get(root)?;
        root = half_of(halves, number);
        number = number / 2;
    }
    if number == 0 { Some(root) } else { None }
}

fn half_of(halves: &Halves, number: usize) -> usize
    ensures { result ≡ half_of halves.now number }
{
    if number % 2 == 0 {
        halves.even
    } else {
        halves.odd
    }
}

/// The array with this item at this number. What both have in common is not copied.
pub fn put(
    nodes: &mut List<Halves>,
    depth: usize,
    root: usize,
    number: usize,
    item: usize,
) -> Result<usize, NoMemory>
    ensures keeps { OnOk result (Keeps nodes.old nodes.new) }
    ensures puts { IfOk result (λ new. Puts nodes.old nodes.new depth root number item new) }
{
    if depth == 0 {
        return Ok(if number == 0 { item } else { root });
    }
    let Some(halves) = nodes.as_slice().get(root) else {
        return Ok(root);
    };
    let halves = *halves;
    let half = put(nodes, depth - 1, half_of(&halves, number), number / 2, item)?;
    let new = nodes.len();
    nodes.push(with_half(&halves, number, half))?;
    Ok(new)
}

/// The halves with another one that has the item of this number.
fn with_half(halves: &Halves, number: usize, half: usize) -> Halves
    ensures { result ≡ with_half halves.now number half }
{
    if number % 2 == 0 {
        Halves {
            even: half,
            odd: halves.odd,
        }
    } else {
        Halves {
            even: halves.even,
            odd: half,
        }
    }
}

/// The same of several numbers.
pub fn put_each(
    nodes: &mut List<Halves>,
    depth: usize,
    root: usize,
    numbers: &[usize],
    item: usize,
) -> Result<usize, NoMemory>
    ensures keeps { OnOk result (Keeps nodes.old nodes.new) }
    ensures puts { IfOk result (λ new. PutsEach nodes.old nodes.new depth root numbers.now item new) }
{
    let mut root = root;
    let mut left = numbers;
    while let [number, rest @ ..] = left {
        root = put(nodes, depth, root, *number, item)?;
        left = rest;
    }
    Ok(root)
}
