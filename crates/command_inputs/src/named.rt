//! The file of a name, read as what it is named for.

ghost use Rattle.std.specs.Prelude.{◌≡◌, ◌≤◌, length, IfOk};
ghost use Rattle.std.specs.List.{AllByRecursion};
ghost use Rattle.api_listing.specs.Listing.{IsFew, EncodesListing};
ghost use Rattle.cert_format.specs.Fits.{EncodesCertificate};
ghost use Rattle.class_codec.specs.Fits.{IsEncodable, EncodesClass};
ghost use Rattle.conspec_parse.specs.Meaning.{EncodesPolicy};
ghost use Rattle.conspec_tree.specs.Tree.{IsPolicyTree};
ghost use Rattle.command_inputs.specs.Forms.{ReadsForm, since};
ghost use Rattle.command_inputs.specs.Kinds.{certificate_form, class_form, listing_form, policy_form, record_form};
ghost use Rattle.command_inputs.specs.Encoded.{AreEncoded};
ghost use Rattle.mon_store.specs.Store.{HasFile};
ghost use Rattle.command_inputs.specs.Named.{IsListed, IsOfName, IsPolicyOf, ReadsClasses as ReadsFiles};

use crate::fault::InputFault;
use crate::files::{Stop, text_of};
use crate::forms::{
    CERTIFICATE_LIMIT, CLASS_LIMIT, LISTING_LIMIT, POLICY_LIMIT, RECORD_LIMIT, ReadClass,
    certificate_read, class_read, listing_read, policy_read, record_read,
};
use api_listing::Listing;
use cert_format::Certificate;
use class_codec::ClassFile;
use conspec_tree::PolicyTree;
use event_record::Record;
use mon_base::{Bytes, List};
use mon_store::Store;
use std::alloc::Global;

/// Class files, and how many bytes their texts have in all, as far as 64 bits tell.
#[derive(Drop)]
pub struct ReadClasses {
    pub files: List<ClassFile>,
    pub total: u64,
}

/// What was read from the file of this name, or that it was refused.
fn of_name<T: Drop>(alloc: Global, name: &Bytes, read: Result<T, InputFault>) -> Result<T, Stop>
    ensures { IsOfName name.now read result }
{
    match read {
        Ok(tree) => Ok(tree),
        Err(InputFault::Memory) => Err(Stop::Memory),
        Err(fault) => Err(Stop::Input(name.copy(alloc)?, fault)),
    }
}

/// The listing that a file encodes.
pub fn listing_of<S: Store>(alloc: Global, store: &mut S, name: &Bytes) -> Result<Listing, Stop>
    ensures form { ReadsForm (S.files store.old) (since (S.faults store.old) (S.faults store.new) (S.last store.new))
        name.now listing_form result }
    ensures few { IfOk result IsFew }
    ensures listed { IfOk result IsListed }
    ensures encodes { IfOk result (λ listing. HasFile (S.files store.old) name.now (λ text. EncodesListing text listing)) }
    ensures files { S.files store.new ≡ S.files store.old }
    ensures faults { S.faults store.old ≤ S.faults store.new }
{
    let text = text_of(alloc, store, name, LISTING_LIMIT)?;
    of_name(alloc, name, listing_read(alloc, text.as_slice()))
}

/// The policy that a file encodes, over the methods of the listing.
pub fn policy_of<S: Store>(
    alloc: Global,
    store: &mut S,
    name: &Bytes,
    listing: &Listing,
) -> Result<PolicyTree, Stop>
    requires { IsFew listing.now }
    ensures form { ReadsForm (S.files store.old) (since (S.faults store.old) (S.faults store.new) (S.last store.new))
        name.now (policy_form listing.now) result }
    ensures few { IfOk result (λ tree. length tree.vars ≤ 16) }
    ensures sound { IfOk result (λ tree. IsPolicyTree listing.now tree) }
    ensures encoded { IfOk result (λ tree. IsPolicyOf listing.now tree) }
    ensures encodes { IfOk result (λ tree. HasFile (S.files store.old) name.now (λ text. EncodesPolicy text listing.now tree)) }
    ensures files { S.files store.new ≡ S.files store.old }
    ensures faults { S.faults store.old ≤ S.faults store.new }
{
    let text = text_of(alloc, store, name, POLICY_LIMIT)?;
    of_name(alloc, name, policy_read(alloc, text.as_slice(), listing))
}

/// The certificate that a file encodes, for a policy of so many variables.
pub fn certificate_of<S: Store>(
    alloc: Global,
    store: &mut S,
    name: &Bytes,
    vars: u32,
) -> Result<Certificate, Stop>
    ensures form { ReadsForm (S.files store.old) (since (S.faults store.old) (S.faults store.new) (S.last store.new))
        name.now (certificate_form vars) result }
    ensures encodes { IfOk result (λ certificate.
        HasFile (S.files store.old) name.now (λ bytes. EncodesCertificate bytes vars certificate)) }
    ensures files { S.files store.new ≡ S.files store.old }
    ensures faults { S.faults store.old ≤ S.faults store.new }
{
    let text = text_of(alloc, store, name, CERTIFICATE_LIMIT)?;
    of_name(alloc, name, certificate_read(alloc, text.as_slice(), vars))
}

/// The record that a file encodes, over the classes and methods of the listing.
pub fn record_of<S: Store>(
    alloc: Global,
    store: &mut S,
    name: &Bytes,
    listing: &Listing,
) -> Result<Record, Stop>
    requires { IsFew listing.now }
    ensures form { ReadsForm (S.files store.old) (since (S.faults store.old) (S.faults store.new) (S.last store.new))
        name.now (record_form listing.now) result }
    ensures files { S.files store.new ≡ S.files store.old }
    ensures faults { S.faults store.old ≤ S.faults store.new }
{
    let text = text_of(alloc, store, name, RECORD_LIMIT)?;
    of_name(alloc, name, record_read(alloc, text.as_slice(), listing))
}

/// The class file of a name.
fn class_of<S: Store>(alloc: Global, store: &mut S, name: &Bytes) -> Result<ReadClass, Stop>
    ensures form { ReadsForm (S.files store.old) (since (S.faults store.old) (S.faults store.new) (S.last store.new))
        name.now class_form result }
    ensures fits { IfOk result (λ class. IsEncodable class.file) }
    ensures encodes { IfOk result (λ class. HasFile (S.files store.old) name.now (λ bytes. EncodesClass bytes class.file)) }
    ensures files { S.files store.new ≡ S.files store.old }
    ensures faults { S.faults store.old ≤ S.faults store.new }
{
    let text = text_of(alloc, store, name, CLASS_LIMIT)?;
    of_name(alloc, name, class_read(alloc, text.as_slice()))
}

/// The class files of these names.
pub fn classes_of<S: Store>(
    alloc: Global,
    store: &mut S,
    names: &[Bytes],
) -> Result<ReadClasses, Stop>
    ensures read { ReadsFiles (S.files store.old) (since (S.faults store.old) (S.faults store.new) (S.last store.new))
        names.now result }
    ensures fits { IfOk result (λ classes. AllByRecursion IsEncodable classes.files) }
    ensures encodes { IfOk result (λ classes. AreEncoded (S.files store.old) names.now classes.files) }
    ensures files { S.files store.new ≡ S.files store.old }
    ensures faults { S.faults store.old ≤ S.faults store.new }
{
    let mut files = Vec::new(alloc);
    let mut total = 0u64;
    let mut rest = names;
    while let [name, later @ ..] = rest {
        let class = class_of(alloc, store, name)?;
        total = total.saturating_add(class.len);
        files.push(class.file)?;
        rest = later;
    }
    Ok(ReadClasses {
        files: List::from_vec(files),
        total,
    })
}
