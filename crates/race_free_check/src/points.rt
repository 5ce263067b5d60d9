//! The points of a base: the values at which it is tried whether events race.

ghost use Rattle.std.specs.Prelude.{◌≡◌, ◌^◌, ◌∷◌, [], map, FitsSigned, IfOk, IfSome};
ghost use Rattle.std.specs.Int.{w32};
ghost use Rattle.api_listing.specs.declared.events.ApiValue.TheVariants as api;
ghost use Rattle.conspec_automaton.specs.Points.{
  constants_of,
  marks,
  points_at,
  points_between,
  shifts,
  thresholds,
  values_in,
  variable_numbers,
};
ghost use Rattle.race_free_check.specs.Borrowed.{base_borrowed};
ghost use Rattle.race_free_check.specs.Small.{AreSmall, HasSame};

use crate::clauses::Clauses;
use crate::naming::{add_all_addends, add_all_assigned, add_all_constants, is_named};
use crate::numbers::{ascending, differences, narrowed, near, sums};
use api_listing::ApiValue;
use conspec_tree::{Base, Kind, Var, number_range, passed_range};
use mon_base::{List, NoMemory};
use std::alloc::Global;

/// A base with what its values are like.
#[derive(Clone, Copy)]
pub enum BaseRef<'a> {
    /// The variable of this place; one of ints is at most so great.
    Variable {
        maxint: i32,
        place: u32,
        var: &'a Var,
    },
    /// The argument of this place.
    Argument {
        place: u32,
        kind: Kind,
    },
    /// The result.
    Result(Kind),
}

/// The values that are tried for the base, where these clauses are.
#[tactic(auto, unfolding(conspec_automaton::specs::Points::points_at))]
pub fn points_at(
    alloc: Global,
    clauses: &Clauses,
    base: BaseRef,
) -> Result<List<ApiValue>, NoMemory>
    ensures { IfOk result (λ points. points ≡ points_at clauses.now (base_borrowed base.entry)) }
{
    match base {
        BaseRef::Variable { maxint, place, var } => {
            variable_points(alloc, maxint, clauses, place, var)
        }
        BaseRef::Argument { place, kind } => {
            let constants = constants_of(alloc, clauses, Base::Arg(place))?;
            values_in(alloc, passed_range(kind), constants)
        }
        BaseRef::Result(kind) => {
            let constants = constants_of(alloc, clauses, Base::Result)?;
            values_in(alloc, number_range(kind), constants)
        }
    }
}

/// The points of the variable of this place. One that no clause names has its first value.
fn variable_points(
    alloc: Global,
    maxint: i32,
    clauses: &Clauses,
    place: u32,
    var: &Var,
) -> Result<List<ApiValue>, NoMemory>
    ensures { IfOk result (λ points. points ≡ map api.Int (variable_numbers maxint clauses.now place var.now)) }
{
    if !is_named(clauses, place) {
        return int_values(alloc, &[var.first]);
    }
    if var.is_bool {
        return int_values(alloc, &[0, 1]);
    }
    let thresholds = thresholds(alloc, maxint, clauses, place)?;
    let near = near(alloc, 0, i64::from(maxint), thresholds.as_slice())?;
    let points = ascending(near);
    narrowed(alloc, points.as_slice())
}

fn int_values(alloc: Global, numbers: &[i32]) -> Result<List<ApiValue>, NoMemory>
    ensures { IfOk result (λ values. values ≡ map api.Int numbers.now) }
{
    let mut values = List::new(alloc);
    for number in numbers {
        values.push(ApiValue::Int(*number))?;
    }
    Ok(values)
}

/// The numbers from which a shift leads to a mark.
fn thresholds(
    alloc: Global,
    maxint: i32,
    clauses: &Clauses,
    place: u32,
) -> Result<Vec<i64>, NoMemory>
    ensures same { IfOk result (λ found. HasSame found.items (thresholds maxint place clauses.now)) }
    ensures small { IfOk result (λ found. AreSmall (2 ^ 34) found.items) }
{
    let marks = marks(alloc, maxint, clauses, place)?;
    let marks = ascending(marks);
    let shifts = shifts(alloc, clauses, place)?;
    let shifts = ascending(shifts);
    let found = differences(alloc, marks.as_slice(), shifts.as_slice())?;
    Ok(ascending(found))
}

/// The numbers at which something changes for the variable.
fn marks(alloc: Global, maxint: i32, clauses: &Clauses, place: u32) -> Result<Vec<i64>, NoMemory>
    ensures is { IfOk result (λ found. found.items ≡ marks maxint place clauses.now) }
    ensures small { IfOk result (λ found. AreSmall (2 ^ 31) found.items) }
{
    let mut marks = Vec::new(alloc);
    marks.push(0)?;
    marks.push(i64::from(maxint))?;
    add_all_constants(&mut marks, clauses, Base::Var(place))?;
    add_all_assigned(&mut marks, clauses, place)?;
    Ok(marks)
}

/// By how much two events can shift the variable.
fn shifts(alloc: Global, clauses: &Clauses, place: u32) -> Result<Vec<i64>, NoMemory>
    ensures same { IfOk result (λ found. HasSame found.items (shifts place clauses.now)) }
    ensures small { IfOk result (λ found. AreSmall (2 ^ 32) found.items) }
{
    let mut addends = Vec::new(alloc);
    add_all_addends(&mut addends, clauses, place)?;
    let addends = ascending(addends);
    sums(alloc, addends.as_slice())
}

/// The numbers that atoms of the clauses compare the base with.
fn constants_of(alloc: Global, clauses: &Clauses, base: Base) -> Result<Vec<i64>, NoMemory>
    ensures is { IfOk result (λ found. found.items ≡ constants_of base clauses.now) }
    ensures small { IfOk result (λ found. AreSmall (2 ^ 31) found.items) }
{
    let mut constants = Vec::new(alloc);
    add_all_constants(&mut constants, clauses, base)?;
    Ok(constants)
}

/// The points of the range, or null where there is none.
fn values_in(
    alloc: Global,
    range: Option<(i64, i64)>,
    constants: Vec<i64>,
) -> Result<List<ApiValue>, NoMemory>
    requires small { AreSmall (2 ^ 31) constants.items }
    requires fits { IfSome range (λ ends. FitsSigned w32 ends.0 × FitsSigned w32 ends.1) }
    ensures { IfOk result (λ points. points ≡ values_in range constants.items) }
{
    match range {
        Some((low, high)) => points_between(alloc, low, high, constants),
        None => null_alone(alloc),
    }
}

fn null_alone(alloc: Global) -> Result<List<ApiValue>, NoMemory>
    ensures { IfOk result (λ points. points ≡ api.Null ∷ []) }
{
    let mut points = List::new(alloc);
    points.push(ApiValue::Null)?;
    Ok(points)
}

/// The ends of the range, and the constants with those beside them; 0 where there are none.
fn points_between(
    alloc: Global,
    low: i64,
    high: i64,
    constants: Vec<i64>,
) -> Result<List<ApiValue>, NoMemory>
    requires small { AreSmall (2 ^ 31) constants.items }
    requires low { FitsSigned w32 low }
    requires high { FitsSigned w32 high }
    ensures { IfOk result (λ points. points ≡ map api.Int (points_between low high constants.items)) }
{
    let named = constants.as_slice();
    if named.is_empty() {
        return int_values(alloc, &[0]);
    }
    let mut near = near(alloc, low, high, named)?;
    near.push(low)?;
    near.push(high)?;
    let points = ascending(near);
    narrowed(alloc, points.as_slice())
}
