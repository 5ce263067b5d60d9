//! What instructions do to the heap, the static fields and the operands. (The Java Virtual Machine Specification, section 6.5.)

ghost use Rattle.guest_model.specs.Changes.{World};
ghost use Rattle.guest_model.specs.HeapOperations.{heap_result};
ghost use Rattle.guest_operations.specs.Operates.{Operates, at};

mod arrays;
mod fields;
mod numbers;
mod objects;

use bytecode_model::Target;
use guest_heap::{Object, Stack, Value};
use guest_operations::{
    Completion, divide, make_numbers, make_references, read_item, read_static, tell_length,
    write_static,
};
use guest_tables::Guest;
use insn_codec::Heap;
use mon_base::{List, NoMemory};
use std::alloc::Global;

/// Does what an instruction does that works on the heap or on static fields, or divides. There is nothing where an operand is
/// missing or not of its kind, or what is left does not fit on the stack; all is then as it was.
pub fn operate(
    alloc: Global,
    guest: &Guest,
    what: Heap,
    target: &Target,
    heap: &mut List<Object>,
    statics: &mut List<List<Value>>,
    stack: &mut Stack,
) -> Result<Option<Completion>, NoMemory>
    ensures { Operates result (at heap.old statics.old stack.old) (at heap.new statics.new stack.new)
        (λ (world : World). heap_result guest.now world what target.now stack.old.items) }
{
    match what {
        Heap::Constant => Ok(numbers::constant(guest, target, stack)),
        Heap::ReadItem(item) => Ok(read_item(item, heap, stack)),
        Heap::WriteItem(item) => Ok(arrays::write_item(guest, item, heap, stack)),
        Heap::Divide { remainder } => Ok(divide(remainder, stack)),
        Heap::ReadStatic => Ok(read_static(guest.program(), target, statics, stack)),
        Heap::WriteStatic => Ok(write_static(target, statics, stack)),
        Heap::ReadField => Ok(fields::read_field(guest, target, heap, stack)),
        Heap::WriteField => Ok(fields::write_field(guest, target, heap, stack)),
        Heap::New => objects::make_object(alloc, guest, target, heap, stack),
        Heap::NewArray(kind) => make_numbers(alloc, kind, heap, stack),
        Heap::NewArrayOf => make_references(alloc, target, heap, stack),
        Heap::Length => tell_length(heap, stack),
        Heap::Cast => Ok(objects::cast(guest, target, heap, stack)),
        Heap::IsInstance => Ok(objects::tell_instance(guest, target, heap, stack)),
        Heap::Call(_) | Heap::Throw | Heap::Enter | Heap::Exit | Heap::Return(_) => Ok(None),
    }
}
