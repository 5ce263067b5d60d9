//! What descriptors, operands, targets and handlers tell as types of the verifier.
//!
//! None of these calls asks which class is below which: each looks at what it is given alone, at one type, a list of types,
//! the text of a descriptor, a method or a handler. The rules of typing, which ask that, are those of code_typing.
//! Types are borrowed ([`TypeRef`](bytecode_model::TypeRef)), so that nothing but a whole frame takes memory.
//! (The Java Virtual Machine Specification, sections 4.3 and 4.10; docs/TYPING.md.)
#![tactic(auto)]

mod described;
mod kinds;
mod laws;
mod lists;
mod locals;
mod methods;
mod place;
mod targets;
mod thrown;
mod uninitialised;

pub use described::{
    arguments_text, arity, next_type, result_text, result_type, type_described, without_last,
};
pub use kinds::{is_array_type, is_made, is_number, is_reference, is_this, of_kind};
pub use laws::{descriptors_agree, typed_effect};
pub use lists::{moved_from, put_back, split_top, type_at};
pub use locals::{count_after, stores, uses_local};
pub use methods::{has_receiver, is_maker};
pub use place::{InsnRef, calls_maker, class_referred, desc_referred};
pub use targets::{array_named, class_of, constant_type, read_type};
pub use thrown::{
    THROWABLE, class_caught, is_alone, local_caught, locals_thrown, stack_thrown, when_thrown,
};
pub use uninitialised::{has_new, has_this, is_made_at, is_same_object, new_at};
