//! Equal copies of calls and answers.

ghost use Rattle.std.specs.Prelude.{◌≡◌, IfOk};

use api_listing::{ApiAnswer, ApiCall, ApiValue};
use mon_base::{List, NoMemory};
use std::alloc::Global;

/// An equal call.
pub fn copy_call(alloc: Global, call: &ApiCall) -> Result<ApiCall, NoMemory>
    ensures { IfOk result (λ copy. copy ≡ call.now) }
{
    let method = call.method.copy(alloc)?;
    let args = copy_values(alloc, call.args.as_slice())?;
    Ok(ApiCall {
        method,
        instance: call.instance,
        args,
    })
}

/// Equal values.
fn copy_values(alloc: Global, values: &[ApiValue]) -> Result<List<ApiValue>, NoMemory>
    ensures { IfOk result (λ copy. copy ≡ values.now) }
{
    let mut made = List::new(alloc);
    for value in values {
        let copy = copy_value(alloc, value)?;
        made.push(copy)?;
    }
    Ok(made)
}

fn copy_value(alloc: Global, value: &ApiValue) -> Result<ApiValue, NoMemory>
    ensures { IfOk result (λ copy. copy ≡ value.now) }
{
    match value {
        ApiValue::Int(n) => Ok(ApiValue::Int(*n)),
        ApiValue::Null => Ok(ApiValue::Null),
        ApiValue::Text(text) => text.copy(alloc).map(ApiValue::Text),
        ApiValue::Obj { class, at } => {
            let class = class.copy(alloc)?;
            Ok(ApiValue::Obj { class, at: *at })
        }
        ApiValue::Class(class) => class.copy(alloc).map(ApiValue::Class),
    }
}

/// An equal answer.
pub fn copy_answer(alloc: Global, answer: &ApiAnswer) -> Result<ApiAnswer, NoMemory>
    ensures { IfOk result (λ copy. copy ≡ answer.now) }
{
    match answer {
        ApiAnswer::Nothing => Ok(ApiAnswer::Nothing),
        ApiAnswer::Int(n) => Ok(ApiAnswer::Int(*n)),
        ApiAnswer::Null => Ok(ApiAnswer::Null),
        ApiAnswer::Text(text) => text.copy(alloc).map(ApiAnswer::Text),
        ApiAnswer::Fresh(class) => class.copy(alloc).map(ApiAnswer::Fresh),
        ApiAnswer::Arg(place) => Ok(ApiAnswer::Arg(*place)),
        ApiAnswer::Receiver => Ok(ApiAnswer::Receiver),
        ApiAnswer::Throws(class) => class.copy(alloc).map(ApiAnswer::Throws),
    }
}
