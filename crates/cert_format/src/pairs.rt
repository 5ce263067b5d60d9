//! Lists of pairs, taken apart.

ghost use Rattle.std.specs.Prelude.{◌≡◌, ◌∷◌, [], ◌++◌, map, IfOk, OnOk};
ghost use Rattle.cert_format.specs.Reading.{unzipped};

use mon_base::{List, NoMemory};
use std::alloc::Global;

/// Appends the first and the second of the pair, each to its list.
fn push_both<F: Drop, N: Drop>(
    firsts: &mut List<F>,
    seconds: &mut List<N>,
    pair: (F, N),
) -> Result<(), NoMemory>
    ensures { OnOk result ((firsts.new ≡ firsts.old ++ pair.0 ∷ []) × (seconds.new ≡ seconds.old ++ pair.1 ∷ [])) }
{
    let (first, second) = pair;
    firsts.push(first)?;
    seconds.push(second)
}

/// Appends the first and the second of each pair.
fn push_all<F: Drop, N: Drop>(
    firsts: &mut List<F>,
    seconds: &mut List<N>,
    pairs: List<(F, N)>,
) -> Result<(), NoMemory>
    ensures { OnOk result ((firsts.new ≡ firsts.old ++ map (λ pair. pair.0) pairs)
        × (seconds.new ≡ seconds.old ++ map (λ pair. pair.1) pairs)) }
{
    for pair in pairs.into_vec() {
        push_both(firsts, seconds, pair)?;
    }
    Ok(())
}

/// The first and the second of each pair.
pub fn unzip<F: Drop, N: Drop>(
    alloc: Global,
    pairs: List<(F, N)>,
) -> Result<(List<F>, List<N>), NoMemory>
    ensures { IfOk result (λ lists. lists ≡ unzipped pairs) }
{
    let mut firsts = List::with_room(alloc, pairs.len())?;
    let mut seconds = List::with_room(alloc, pairs.len())?;
    push_all(&mut firsts, &mut seconds, pairs)?;
    Ok((firsts, seconds))
}
