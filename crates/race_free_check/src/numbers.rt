//! Lists of numbers that ascend.

ghost use Rattle.std.specs.Prelude.{◌≡◌, ℕ, ◌^◌, ◌+ℤ◌, ◌-ℤ◌, ◌++◌, ◌∷◌, [], map, filter, FitsSigned, IfOk, OnOk};
ghost use Rattle.std.specs.Int.{w32};
ghost use Rattle.std.specs.List.{AllByRecursion};
ghost use Rattle.api_listing.specs.declared.events.ApiValue.TheVariants as api;
ghost use Rattle.conspec_automaton.specs.Points.{ascending, differences, near, sums};
ghost use Rattle.conspec_automaton.specs.Range.{is_between};
ghost use Rattle.race_free_check.specs.Small.{AreSmall, IsSmall};

use api_listing::ApiValue;
use mon_base::{List, NoMemory};
use std::alloc::Global;

/// The numbers, each once, in order. It takes no memory.
pub fn ascending(numbers: Vec<i64>) -> Vec<i64>
    ensures is { result.items ≡ ascending numbers.items }
    ensures small { (bound : ℕ) → AreSmall bound numbers.items → AreSmall bound result.items }
{
    let mut numbers = numbers;
    numbers.sort_unstable();
    numbers.dedup();
    numbers
}

/// The numbers and those beside them that lie between two others.
pub fn near(alloc: Global, low: i64, high: i64, numbers: &[i64]) -> Result<Vec<i64>, NoMemory>
    requires { AreSmall (2 ^ 34) numbers.now }
    ensures { IfOk result (λ found. found.items ≡ near low high numbers.now) }
{
    let mut found = Vec::new(alloc);
    for number in numbers {
        add_between(&mut found, low, high, *number - 1)?;
        add_between(&mut found, low, high, *number)?;
        add_between(&mut found, low, high, *number + 1)?;
    }
    Ok(found)
}

fn add_between(found: &mut Vec<i64>, low: i64, high: i64, number: i64) -> Result<(), NoMemory>
    ensures { OnOk result (found.new.items ≡ found.old.items ++ filter (is_between low high) (number ∷ [])) }
{
    if low <= number && number <= high {
        found.push(number)?;
    }
    Ok(())
}

/// Nothing, each number, and the sum of each two.
pub fn sums(alloc: Global, addends: &[i64]) -> Result<Vec<i64>, NoMemory>
    requires { AreSmall (2 ^ 31) addends.now }
    ensures is { IfOk result (λ found. found.items ≡ sums addends.now) }
    ensures small { IfOk result (λ found. AreSmall (2 ^ 32) found.items) }
{
    let mut found = Vec::new(alloc);
    found.push(0)?;
    for addend in addends {
        found.push(*addend)?;
    }
    for by in addends {
        add_shifted(&mut found, *by, addends)?;
    }
    Ok(found)
}

fn add_shifted(found: &mut Vec<i64>, by: i64, numbers: &[i64]) -> Result<(), NoMemory>
    requires by { IsSmall (2 ^ 31) by }
    requires numbers { AreSmall (2 ^ 31) numbers.now }
    requires small { AreSmall (2 ^ 32) found.old.items }
    ensures adds { OnOk result (found.new.items ≡ found.old.items ++ map (λ n. by +ℤ n) numbers.now) }
    ensures small { OnOk result (AreSmall (2 ^ 32) found.new.items) }
{
    for number in numbers {
        found.push(by + *number)?;
    }
    Ok(())
}

/// Each mark less each shift.
pub fn differences(alloc: Global, marks: &[i64], shifts: &[i64]) -> Result<Vec<i64>, NoMemory>
    requires marks { AreSmall (2 ^ 31) marks.now }
    requires shifts { AreSmall (2 ^ 32) shifts.now }
    ensures is { IfOk result (λ found. found.items ≡ differences marks.now shifts.now) }
    ensures small { IfOk result (λ found. AreSmall (2 ^ 34) found.items) }
{
    let mut found = Vec::new(alloc);
    for mark in marks {
        add_lessened(&mut found, *mark, shifts)?;
    }
    Ok(found)
}

fn add_lessened(found: &mut Vec<i64>, mark: i64, shifts: &[i64]) -> Result<(), NoMemory>
    requires mark { IsSmall (2 ^ 31) mark }
    requires shifts { AreSmall (2 ^ 32) shifts.now }
    requires small { AreSmall (2 ^ 34) found.old.items }
    ensures adds { OnOk result (found.new.items ≡ found.old.items ++ map (λ k. mark -ℤ k) shifts.now) }
    ensures small { OnOk result (AreSmall (2 ^ 34) found.new.items) }
{
    for shift in shifts {
        found.push(mark - *shift)?;
    }
    Ok(())
}

/// The numbers, which are of 32 bits, as values.
pub fn narrowed(alloc: Global, numbers: &[i64]) -> Result<List<ApiValue>, NoMemory>
    requires { AllByRecursion (FitsSigned w32) numbers.now }
    ensures { IfOk result (λ found. found ≡ map api.Int numbers.now) }
{
    let mut found = List::new(alloc);
    for number in numbers {
        found.push(ApiValue::Int(*number as i32))?;
    }
    Ok(found)
}
