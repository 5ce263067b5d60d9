//! Listings: the library that a program may call without giving its classes, as a person writes it down.
//!
//! A listing is a text of lines (docs/LISTINGS.md), each of which makes a [`Declaration`]. What it is that a text encodes
//! a listing is said here (specs/Listing.antt); the crate listing_text reads one. [`resolve`] finds the method that a
//! call means. Descriptors are read here, by [`parse_descriptor`] and [`parse_class_descriptor`]; and here are the types
//! of what a program and the library say to each other: [`ApiCall`], [`ApiAnswer`], [`Event`].
#![tactic(auto)]

mod built_in;
mod declaration;
mod descriptor;
mod events;
mod fault;
mod lookup;
mod types;
mod words;

pub use built_in::{CLASSES, METHODS, built_in_classes, is_built_in};
pub use declaration::Declaration;
pub use descriptor::{
    Element, FieldType, MethodType, parse_class_descriptor, parse_descriptor,
    parse_field_descriptor,
};
pub use events::{ApiAnswer, ApiCall, ApiValue, Event};
pub use fault::FormFault;
pub use lookup::{find_class, index_of, is_known_class, resolve};
pub use types::{ListedClass, ListedMethod, Listing};
pub use words::{class_name, is_text};
