//! A state of a policy and events, as they are printed.

ghost use Rattle.std.specs.Prelude.{◌≡◌, ◌++◌, IfOk, OnOk};
ghost use Rattle.std.specs.List.{flat_map, zip};
ghost use Rattle.command_outputs.specs.Example.{
  event_after,
  example_text,
  second_after,
  state_text,
  truth_name,
  value_text,
  variable_after,
  variable_text,
};

use api_listing::{Event, Listing};
use conspec_automaton::State;
use conspec_tree::{PolicyTree, Var};
use event_record::push_threadless;
use mon_base::{Bytes, NoMemory, push_number};
use std::alloc::Global;

/// The state of the policy, and after it the event or two, in their order.
pub fn example_text(
    alloc: Global,
    policy: &PolicyTree,
    listing: &Listing,
    state: &State,
    first: &Event,
    second: &Option<Event>,
) -> Result<Bytes, NoMemory>
    ensures { IfOk result (λ text. text ≡ example_text policy.now listing.now state.now first.now second.now) }
{
    let mut text = Bytes::new(alloc);
    push_state(&mut text, policy.vars.as_slice(), state.values())?;
    push_event(&mut text, listing, first)?;
    push_second(&mut text, listing, second)?;
    Ok(text)
}

// ---- events

fn push_event(text: &mut Bytes, listing: &Listing, event: &Event) -> Result<(), NoMemory>
    ensures { OnOk result (text.new ≡ text.old ++ event_after listing.now.methods event.now) }
{
    text.extend(b" ; ")?;
    push_threadless(text, listing, event)
}

fn push_second(text: &mut Bytes, listing: &Listing, event: &Option<Event>) -> Result<(), NoMemory>
    ensures { OnOk result (text.new ≡ text.old ++ second_after listing.now.methods event.now) }
{
    match event {
        Some(event) => push_event(text, listing, event),
        None => Ok(()),
    }
}

// ---- the state

fn push_state(text: &mut Bytes, vars: &[Var], values: &[i32]) -> Result<(), NoMemory>
    ensures { OnOk result (text.new ≡ text.old ++ state_text vars.now values.now) }
{
    match vars {
        [var, vars @ ..] => {
            match values {
                [value, values @ ..] => {
                    push_variable(text, var, *value)?;
                    push_variables(text, vars, values)
                }
                [] => text.extend(b"-"),
            }
        }
        [] => text.extend(b"-"),
    }
}

/// Appends the variables with their values, each after a comma.
fn push_variables(text: &mut Bytes, vars: &[Var], values: &[i32]) -> Result<(), NoMemory>
    ensures { OnOk result (text.new ≡ text.old ++ flat_map variable_after (zip vars.now values.now)) }
{
    let mut vars_left = vars;
    let mut values_left = values;
    while let [var, later_vars @ ..] = vars_left {
        let [value, later_values @ ..] = values_left else {
            return Ok(());
        };
        push_after(text, var, *value)?;
        vars_left = later_vars;
        values_left = later_values;
    }
    Ok(())
}

fn push_after(text: &mut Bytes, var: &Var, value: i32) -> Result<(), NoMemory>
    ensures { OnOk result (text.new ≡ text.old ++ variable_after (var.now, value)) }
{
    text.push(b',')?;
    push_variable(text, var, value)
}

fn push_variable(text: &mut Bytes, var: &Var, value: i32) -> Result<(), NoMemory>
    ensures { OnOk result (text.new ≡ text.old ++ variable_text var.now value) }
{
    text.extend(var.name.as_slice())?;
    text.push(b'=')?;
    push_value(text, var.is_bool, value)
}

fn push_value(text: &mut Bytes, is_bool: bool, value: i32) -> Result<(), NoMemory>
    ensures { OnOk result (text.new ≡ text.old ++ value_text is_bool value) }
{
    if is_bool {
        text.extend(truth_name(value == 1))
    } else {
        push_number(text, i64::from(value))
    }
}

fn truth_name(value: bool) -> &'static [u8]
    ensures { result.now ≡ truth_name value }
{
    if value { b"true" } else { b"false" }
}
