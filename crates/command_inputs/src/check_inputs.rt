//! The files of a check, read in their order: the first that is not what it is named for, or that the store does not give,
//! ends the reading.

ghost use Rattle.std.specs.Prelude.{◌≡◌, ◌≤◌, IfOk};
ghost use Rattle.std.specs.List.{AllByRecursion};
ghost use Rattle.cert_format.specs.Fits.{EncodesCertificate};
ghost use Rattle.class_codec.specs.Fits.{IsEncodable};
ghost use Rattle.command_inputs.specs.Forms.{since};
ghost use Rattle.command_inputs.specs.CheckInputs.{AreSound, ReadsCheck};
ghost use Rattle.command_inputs.specs.Kinds.{certificate_form};
ghost use Rattle.command_inputs.specs.Named.{ReadsBefore};
ghost use Rattle.command_inputs.specs.Encoded.{AreEncoded, CheckEncoded};
ghost use Rattle.mon_store.specs.Store.{HasFile};
ghost use Rattle.command_inputs.specs.Words.{check_named};

use crate::files::Stop;
use crate::named::{ReadClasses, certificate_of, classes_of};
use crate::race_inputs::listed_policy;
use crate::words::CheckWords;
use api_listing::Listing;
use cert_format::Certificate;
use conspec_tree::PolicyTree;
use mon_store::Store;
use std::alloc::Global;

/// What the files of a check are.
#[derive(Drop)]
pub struct CheckInputs {
    pub listing: Listing,
    pub policy: PolicyTree,
    pub certificate: Certificate,
    pub classes: ReadClasses,
}

/// Reads the certificate, for a policy of so many variables, and then the classes.
fn certified<S: Store>(
    alloc: Global,
    store: &mut S,
    words: &CheckWords,
    vars: u32,
) -> Result<(Certificate, ReadClasses), Stop>
    ensures read { ReadsBefore (S.files store.old) (since (S.faults store.old) (S.faults store.new) (S.last store.new))
        (check_named words.now).certificate (certificate_form vars) (check_named words.now).classes result }
    ensures fits { IfOk result (λ r. AllByRecursion IsEncodable r.1.files) }
    ensures certificate { IfOk result (λ r. HasFile (S.files store.old) words.now.certificate.now
        (λ bytes. EncodesCertificate bytes vars r.0)) }
    ensures classes { IfOk result (λ r. AreEncoded (S.files store.old) words.now.classes.now r.1.files) }
    ensures files { S.files store.new ≡ S.files store.old }
    ensures faults { S.faults store.old ≤ S.faults store.new }
{
    let certificate = certificate_of(alloc, store, words.certificate, vars)?;
    let classes = classes_of(alloc, store, words.classes)?;
    Ok((certificate, classes))
}

/// Reads the files of a check in their order: listing, policy, certificate, classes.
pub fn read_check<S: Store>(
    alloc: Global,
    store: &mut S,
    words: &CheckWords,
) -> Result<CheckInputs, Stop>
    ensures read { ReadsCheck (S.files store.old) (since (S.faults store.old) (S.faults store.new) (S.last store.new))
        (check_named words.now) result }
    ensures sound { IfOk result AreSound }
    ensures encodes { IfOk result (CheckEncoded (S.files store.old) (check_named words.now)) }
    ensures files { S.files store.new ≡ S.files store.old }
    ensures faults { S.faults store.old ≤ S.faults store.new }
{
    let inputs = listed_policy(alloc, store, words.listing, words.policy)?;
    let vars = inputs.policy.vars.len() as u32;
    let (certificate, classes) = certified(alloc, store, words, vars)?;
    Ok(CheckInputs {
        listing: inputs.listing,
        policy: inputs.policy,
        certificate,
        classes,
    })
}
