//! Certificates: what a checker is told of each instruction of a woven program, and their one encoding in bytes.
//!
//! A certificate has the frame type before each instruction that is reached, and its note: what the thread that
//! stands there has done of a block. There is one certificate for a text and one text for a certificate.
#![tactic(auto)]

mod certificate;
mod decoding;
mod encoding;
mod fault;
mod index;
mod items;
mod name;
mod names;
mod note;
mod note_reading;
mod note_writing;
mod pairs;
mod place;
mod sharing;
mod typing;
mod writing;

pub use certificate::{Certificate, Mode};
pub use decoding::decode;
pub use encoding::{MAX_LEN, encode, one_encoding};
pub use fault::{CertForm, CertLong};
pub use name::Name;
pub use note::{Note, Phase8, Site, Term};
pub use sharing::{are_same, copied_types, push_frame, put_types};
pub use typing::{FrameType, Typing, VType};
