//! What the texts of files are read as.

ghost use Rattle.std.specs.Prelude.{◌≡◌, ◌<◌, ◌≤◌, ◌^◌, length, IfOk};
ghost use Rattle.std.specs.List.{AllByRecursion};
ghost use Rattle.api_listing.specs.Listing.{IsFew, EncodesListing};
ghost use Rattle.cert_format.specs.Fits.{EncodesCertificate};
ghost use Rattle.class_codec.specs.Fits.{IsEncodable, EncodesClass};
ghost use Rattle.conspec_parse.specs.Meaning.{EncodesPolicy};
ghost use Rattle.conspec_tree.specs.Tree.{IsPolicyTree};
ghost use Rattle.command_inputs.specs.Kinds.{certificate_form, class_form, listing_form, policy_form, record_form};
ghost use Rattle.mon_base.specs.Answer.{Answers};

use crate::fault::{
    InputFault, certificate_told, class_told, listing_told, policy_told, record_told,
};
use api_listing::Listing;
use cert_format::Certificate;
use class_codec::ClassFile;
use conspec_parse::parse;
use conspec_tree::PolicyTree;
use event_record::{Record, read_record};
use listing_text::read;
use std::alloc::Global;

/// The greatest length of a listing, in bytes.
pub const LISTING_LIMIT: u64 = 1_048_576;

/// The greatest length of a policy, in bytes.
pub const POLICY_LIMIT: u64 = 65_536;

/// The greatest length of a certificate, in bytes.
pub const CERTIFICATE_LIMIT: u64 = 67_108_864;

/// The greatest length of a class file, in bytes.
pub const CLASS_LIMIT: u64 = 1_048_576;

/// The greatest length of a record, in bytes.
pub const RECORD_LIMIT: u64 = 268_435_456;

/// A class file, and the length of its text, in bytes.
#[derive(Drop)]
pub struct ReadClass {
    pub file: ClassFile,
    pub len: u64,
}

/// The listing that a text encodes.
pub fn listing_read(alloc: Global, text: &[u8]) -> Result<Listing, InputFault>
    ensures read { Answers InputFault.Memory result (listing_form.reads text.now) }
    ensures few { IfOk result IsFew }
    ensures listed { IfOk result (λ listing. EncodesListing text.now listing) }
{
    match read(alloc, text) {
        Ok(listing) => Ok(listing),
        Err(fault) => Err(listing_told(fault)),
    }
}

/// The policy that a text encodes over the methods of a listing.
pub fn policy_read(alloc: Global, text: &[u8], listing: &Listing) -> Result<PolicyTree, InputFault>
    requires { IsFew listing.now }
    ensures read { Answers InputFault.Memory result ((policy_form listing.now).reads text.now) }
    ensures few { IfOk result (λ tree. length tree.vars ≤ 16) }
    ensures sound { IfOk result (λ tree. IsPolicyTree listing.now tree) }
    ensures encodes { IfOk result (λ tree. EncodesPolicy text.now listing.now tree) }
{
    match parse(alloc, text, listing) {
        Ok(tree) => Ok(tree),
        Err(fault) => Err(policy_told(fault)),
    }
}

/// The certificate that a text encodes for a policy of so many variables.
pub fn certificate_read(alloc: Global, text: &[u8], vars: u32) -> Result<Certificate, InputFault>
    ensures read { Answers InputFault.Memory result ((certificate_form vars).reads text.now) }
    ensures encodes { IfOk result (λ certificate. EncodesCertificate text.now vars certificate) }
{
    match cert_format::decode(alloc, text, vars) {
        Ok(certificate) => Ok(certificate),
        Err(fault) => Err(certificate_told(fault)),
    }
}

/// The class file that a text encodes, with the text's length.
pub fn class_read(alloc: Global, text: &[u8]) -> Result<ReadClass, InputFault>
    ensures read { Answers InputFault.Memory result (class_form.reads text.now) }
    ensures fits { IfOk result (λ class. IsEncodable class.file) }
    ensures encodes { IfOk result (λ class. EncodesClass text.now class.file) }
{
    match class_codec::decode(alloc, text) {
        Ok(file) => {
            Ok(ReadClass {
                file,
                len: text.len() as u64,
            })
        }
        Err(fault) => Err(class_told(fault)),
    }
}

/// The record that a text encodes over the classes and methods of a listing.
pub fn record_read(alloc: Global, text: &[u8], listing: &Listing) -> Result<Record, InputFault>
    requires { IsFew listing.now }
    ensures { Answers InputFault.Memory result ((record_form listing.now).reads text.now) }
{
    match read_record(alloc, text, listing) {
        Ok(recorded) => Ok(recorded),
        Err(fault) => Err(record_told(fault)),
    }
}
