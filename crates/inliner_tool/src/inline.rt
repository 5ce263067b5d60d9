//! The command `inline`: its inputs, what is woven of them and judged before anything is written, what it answers, and what it
//! writes.
ghost use Rattle.std.specs.Prelude.{◌≡◌, ◌≤◌, Err, IfErr, IfOk, Ok, length, true};
ghost use Rattle.api_listing.specs.declared.types.Listing.{Listing};
ghost use Rattle.api_listing.specs.Listing.{IsFew};
ghost use Rattle.block_template.specs.Blocks.{plan_of};
ghost use Rattle.bytecode_model.specs.Layout.{IsLaidOut};
ghost use Rattle.bytecode_model.specs.Order.{IsInOrder};
ghost use Rattle.bytecode_model.specs.Sound.{IsSound};
ghost use Rattle.cert_checker.specs.Judging.{IsAllowed, judged};
ghost use Rattle.cert_format.specs.declared.certificate.Mode.TheVariants as modes;
ghost use Rattle.cert_maker.specs.Noting.{certificate_of};
ghost use Rattle.class_weaving.specs.Woven.{woven};
ghost use Rattle.command_inputs.specs.InlineWords.{inline_named};
ghost use Rattle.conspec_automaton.specs.Building.{built};
ghost use Rattle.conspec_automaton.specs.Sound.{IsPolicy, NamesMethods};
ghost use Rattle.conspec_tree.specs.Tree.{IsPolicyTree};
ghost use Rattle.command_inputs.specs.InlineInputs.{InlineSound};
ghost use Rattle.command_inputs.specs.Named.{IsListed};
ghost use Rattle.command_outputs.specs.Outputs.{is_written, outputs_of};
ghost use Rattle.cert_maker.specs.Canonical.{FitsTyping, canonical};
ghost use Rattle.typed_runs.specs.Programs.{IsLinkedProgram};
ghost use Rattle.woven_linking.specs.Inlined.{IsOfFiles};
ghost use Rattle.woven_typing.specs.Framing.{typing_of};
ghost use Rattle.inliner_tool.specs.Seen.{seen};
ghost use Rattle.inliner_tool.specs.Expected.{IsExpectedOf, WovenHasBlocks, WovenIsExpected};
ghost use Rattle.inliner_tool.specs.Policy.{IsSoundFor};
ghost use Rattle.inliner_tool.specs.Steps.{Equals, UnlessMemory};
ghost use Rattle.inliner_tool.specs.Transparent.{WovenIsTransparent};
ghost use Rattle.inliner_tool.specs.Weaving.{
  Accepts,
  Fits,
  Gathers,
  GathersBoth,
  IsFreeOfRaces,
  IsGathered,
  IsJudgedReady,
  IsMadeReady,
  IsPlanned,
  Plans,
  certificate_with,
  mode_for,
  outputs_step,
  splice_end,
  weave_step,
};
ghost use Rattle.command_inputs.specs.Forms.{Then};
ghost use Rattle.inliner_tool.specs.Commands.{Makes, readings_of};
ghost use Rattle.inliner_tool.specs.Inline.{IsReadyToWrite, ready_made};
ghost use Rattle.inliner_tool.specs.InlineDecision.{InlineDecides};
ghost use Rattle.inliner_tool.specs.Rechecking.{WrittenIsAccepted};
ghost use Rattle.command_inputs.specs.Words.{Inline};

use crate::answer::{Answer, Made};
use crate::programs::{program_of, types_of};
use crate::race::{auto_mode, race_step};
use crate::refusal::{Ended, Refusal, stopped};
use api_listing::Listing;
use block_runs::accepted_runs_are_lifted;
use block_template::plans_are_good;
use bytecode_model::{LinkedClass, Program, Side};
use cert_checker::{Accepted, Denial, check};
use cert_format::{CertLong, Certificate, Mode, Typing};
use cert_maker::{canonical, canonical_is_typed, make, woven_is_accepted};
use class_linking::{linked_is_in_order, linked_operands_are_right, linked_programs_are_named};
use command_inputs::{InlineInputs, InlineWords, Weaving, read_inline};
use conspec_automaton::{Policy, build};
use conspec_parse::kinds_are_told;
use conspec_tree::PolicyTree;
use mon_base::{Bytes, List, NoMemory};
use mon_store::{Output, Store};
use offset_patch::SpliceFault;
use std::alloc::Global;
use type_lattice::Indexed;
use typed_runs::policies_tell_types;
use woven_linking::{Inlined, inline, original_is_free, woven_files_link, woven_program_is_linked};
use woven_typing::{
    items_are_reached, listings_know_throwable, policies_tell, typing_of, woven_is_typed,
};

/// What is to be written, and what is said of it.
#[derive(Drop)]
pub struct Ready {
    pub outputs: List<Output>,
    pub accepted: Accepted,
    /// The number of class files among the outputs.
    pub classes: u64,
}

/// What is woven: a program with its types, a policy, and the mode.
#[derive(Drop)]
pub struct Given {
    pub client: Program,
    pub typing: Typing,
    pub policy: Policy,
    pub mode: Mode,
}

/// What `inline` makes of its files.
pub fn make_inline<S: Store>(
    alloc: Global,
    words: &InlineWords,
    store: &mut S,
) -> Result<Made, Ended>
    ensures makes { UnlessMemory (Makes (readings_of (seen S.files S.faults S.last store.old store.new))
        (Inline (inline_named words.now))) result }
    ensures ready { IfOk result
        (IsReadyToWrite (seen S.files S.faults S.last store.old store.new) (inline_named words.now)) }
    ensures files { S.files store.new ≡ S.files store.old }
    ensures faults { S.faults store.old ≤ S.faults store.new }
{
    match read_inline(alloc, store, words) {
        Ok(inputs) => match plan(alloc, inputs, words.main, words.folder, words.weaving) {
            Ok(ready) => Ok(ready_made(ready)),
            Err(ended) => Err(ended),
        },
        Err(stop) => Err(stopped(stop)),
    }
}

/// What is written, and then answered.
fn ready_made(ready: Ready) -> Made
    ensures { result ≡ ready_made ready }
{
    let Ready {
        outputs,
        accepted,
        classes,
    } = ready;
    Made {
        answer: Answer::Inlined { accepted, classes },
        outputs,
    }
}

/// Links and types the inputs, weaves them, and checks what is woven.
pub fn plan(
    alloc: Global,
    inputs: InlineInputs,
    main: &Bytes,
    folder: &Bytes,
    weaving: Weaving,
) -> Result<Ready, Ended>
    requires { InlineSound inputs }
    // The first step that fails is told.
    ensures plans { UnlessMemory (Plans main.now folder.now weaving inputs) result }
    // What is ready is the program with its blocks, and is accepted.
    ensures planned { IfOk result (λ ready. IsPlanned main.now folder.now weaving inputs ready) }
{
    let InlineInputs {
        listing,
        policy,
        classes,
    } = inputs;
    let client = program_of(alloc, listing, classes, main, Side::Original)?;
    let given = given_of(alloc, weaving, policy, client)?;
    kinds_are_told();
    policies_tell_types();
    woven_is_expected();
    woven_is_transparent();
    rewoven(alloc, main, folder, given)
}

/// What is woven of inputs links to their program with its blocks, and is as is expected.
pub fn woven_is_expected()
    ensures links { WovenHasBlocks }
    ensures expected { WovenIsExpected }
{
    plans_are_good();
    woven_files_link();
    woven_program_is_linked();
    original_is_free();
    linked_is_in_order();
    linked_operands_are_right();
    kinds_are_told();
    policies_tell();
    listings_know_throwable();
    woven_is_typed();
    items_are_reached();
    canonical_is_typed();
    woven_is_accepted();
    linked_programs_are_named();
}

/// What is woven of inputs leaves the runs that the policy accepts as they were.
fn woven_is_transparent()
    ensures { WovenIsTransparent }
{
    linked_is_in_order();
    linked_programs_are_named();
    accepted_runs_are_lifted();
}

/// What is to be woven: the program with its types, and the policy in its mode.
pub fn given_of(
    alloc: Global,
    weaving: Weaving,
    tree: PolicyTree,
    client: Indexed,
) -> Result<Given, Ended>
    requires sound { IsSound client }
    requires order { IsInOrder client }
    requires policy { IsPolicyTree client.listing tree }
    ensures gathers { UnlessMemory (Gathers weaving tree client) result }
    ensures gathered { IfOk result (IsGathered tree client) }
    ensures sound { IfOk result (λ given. (listing : Listing) → IsPolicyTree listing tree
        → IsPolicy given.policy × NamesMethods (length listing.methods) given.policy) }
{
    let gathered = gathered(alloc, weaving, &tree, &client);
    drop(tree);
    match gathered {
        Ok((typing, chosen)) => Ok(given_with(client, typing, chosen)),
        Err(ended) => {
            drop(client);
            Err(ended)
        }
    }
}

/// The program with its types, and the policy in its mode.
fn given_with(client: Indexed, typing: Typing, chosen: (Policy, Mode)) -> Given
    ensures { result ≡ record { client = client; typing = typing; policy = chosen.0; mode = chosen.1 } }
{
    let (policy, mode) = chosen;
    Given {
        client: client.into_program(),
        typing,
        policy,
        mode,
    }
}

/// The types of the program, and the policy in its mode.
fn gathered(
    alloc: Global,
    weaving: Weaving,
    tree: &PolicyTree,
    client: &Indexed,
) -> Result<(Typing, (Policy, Mode)), Ended>
    requires sound { IsSound client.now }
    requires order { IsInOrder client.now }
    requires policy { IsPolicyTree client.now.listing tree.now }
    ensures gathers { UnlessMemory (GathersBoth weaving tree.now client.now) result }
    ensures laid_out { IfOk result (λ r. IsLaidOut client.now r.0.frames) }
    ensures policy { IfOk result (λ r. r.1.0 ≡ built tree.now) }
    ensures free { IfOk result (λ r. r.1.1 ≡ modes.Release → IsFreeOfRaces r.1.0) }
    ensures sound { IfOk result (λ r. (listing : Listing) → IsPolicyTree listing tree.now
        → IsPolicy r.1.0 × NamesMethods (length listing.methods) r.1.0) }
{
    let typing = types_of(alloc, client)?;
    let chosen = chosen(alloc, weaving, tree, &client.program().listing)?;
    Ok((typing, chosen))
}

/// The policy, and the mode in which it is woven.
fn chosen(
    alloc: Global,
    weaving: Weaving,
    tree: &PolicyTree,
    listing: &Listing,
) -> Result<(Policy, Mode), Ended>
    requires { IsPolicyTree listing.now tree.now }
    ensures mode { UnlessMemory (Then (Equals (mode_for weaving tree.now listing.now))
        (λ mode. Equals (Ok (built tree.now, mode)))) result }
    ensures free { IfOk result (λ r. r.1 ≡ modes.Release → IsFreeOfRaces r.0) }
    ensures sound { IfOk result (λ r. (listing : Listing) → IsPolicyTree listing tree.now
        → IsPolicy r.0 × NamesMethods (length listing.methods) r.0) }
{
    let policy = build(alloc, tree)?;
    match mode_for(alloc, weaving, tree, listing, &policy) {
        Ok(mode) => Ok((policy, mode)),
        Err(ended) => {
            drop(policy);
            Err(ended)
        }
    }
}

/// The mode in which the policy of a tree is woven.
fn mode_for(
    alloc: Global,
    weaving: Weaving,
    tree: &PolicyTree,
    listing: &Listing,
    policy: &Policy,
) -> Result<Mode, Ended>
    requires is { policy.now ≡ built tree.now }
    requires sound { IsPolicy policy.now }
    ensures is { UnlessMemory (Equals (mode_for weaving tree.now listing.now)) result }
    ensures free { IfOk result (λ mode. mode ≡ modes.Release → IsFreeOfRaces policy.now) }
{
    match weaving {
        Weaving::Hold => Ok(Mode::Hold),
        Weaving::Release => match race_step(alloc, tree, listing, policy) {
            Ok(()) => Ok(Mode::Release),
            Err(ended) => Err(ended),
        },
        Weaving::Auto => match auto_mode(alloc, policy) {
            Ok(mode) => Ok(mode),
            Err(NoMemory) => Err(Ended::Memory),
        },
    }
}

/// The program with its blocks, and the classes that it was made of.
fn inlined(
    alloc: Global,
    client: Program,
    policy: &Policy,
    mode: Mode,
) -> Result<(Inlined, List<LinkedClass>), Ended>
    requires sound { IsSound client }
    requires policy { IsPolicy policy.now }
    ensures made { IfOk result (λ made. IsOfFiles client policy.now mode made) }
    ensures unfit { IfErr result (λ ended. UnlessMemory
        (Equals (weave_step (woven client (plan_of policy.now mode) policy.now.vars))) (Err ended)) }
{
    match inline(alloc, client, policy, mode) {
        Ok(made) => Ok(made),
        Err(fault) => Err(unfit(fault)),
    }
}

/// Why nothing is woven.
pub fn unfit(fault: SpliceFault) -> Ended
    ensures { result ≡ splice_end fault }
{
    match fault {
        SpliceFault::Overflow {
            class,
            method,
            what,
            value,
        } => Ended::Refused(Refusal::Overflow {
            class,
            method,
            what,
            value,
        }),
        SpliceFault::Memory => Ended::Memory,
    }
}

/// What is woven, as the program that it links to, with its certificate, which is accepted.
fn rewoven(alloc: Global, main: &Bytes, folder: &Bytes, given: Given) -> Result<Ready, Ended>
    requires sound { IsSound given.client }
    requires few { IsFew given.client.listing }
    requires listed { IsListed given.client.listing }
    requires policy { IsSoundFor given.client.listing given.policy }
    requires free { given.mode ≡ modes.Release → IsFreeOfRaces given.policy }
    requires expected { IsExpectedOf main.now given }
    ensures steps { UnlessMemory (Fits main.now folder.now given) result }
    ensures rewoven { IfOk result (λ ready. IsMadeReady main.now folder.now given ready) }
{
    match typing_of(
        alloc,
        &given.client,
        &given.policy,
        given.mode,
        &given.typing,
    ) {
        Ok(typing) => retyped(alloc, main, folder, given, typing),
        Err(NoMemory) => {
            drop(given);
            Err(Ended::Memory)
        }
    }
}

/// The same, where these are the types of what is woven.
fn retyped(
    alloc: Global,
    main: &Bytes,
    folder: &Bytes,
    given: Given,
    typing: Typing,
) -> Result<Ready, Ended>
    requires sound { IsSound given.client }
    requires few { IsFew given.client.listing }
    requires listed { IsListed given.client.listing }
    requires policy { IsSoundFor given.client.listing given.policy }
    requires free { given.mode ≡ modes.Release → IsFreeOfRaces given.policy }
    requires expected { IsExpectedOf main.now given }
    requires typing { typing ≡ typing_of given.client given.policy given.mode given.typing }
    ensures steps { UnlessMemory (Fits main.now folder.now given) result }
    ensures rewoven { IfOk result (λ ready. IsMadeReady main.now folder.now given ready) }
{
    let Given {
        client,
        policy,
        mode,
        ..
    } = given;
    match inlined(alloc, client, &policy, mode) {
        Ok((inlined, old)) => {
            let ready = ready_of(alloc, folder, &policy, inlined, old, typing);
            drop(policy);
            ready
        }
        Err(ended) => {
            drop(typing);
            drop(policy);
            Err(ended)
        }
    }
}

/// What is to be written of a program with its blocks, which was made of these classes and has these types.
fn ready_of(
    alloc: Global,
    folder: &Bytes,
    policy: &Policy,
    inlined: Inlined,
    old: List<LinkedClass>,
    typing: Typing,
) -> Result<Ready, Ended>
    requires order { IsInOrder inlined.program }
    requires linked { IsLinkedProgram inlined.program }
    requires policy { IsSoundFor inlined.program.listing policy.now }
    requires allowed { IsAllowed inlined.program policy.now (certificate_with old policy.now inlined typing) }
    ensures accepts { UnlessMemory (Accepts folder.now policy.now inlined.program (certificate_with old policy.now inlined typing)) result }
    ensures judged { IfOk result (IsJudgedReady folder.now policy.now inlined.program (certificate_with old policy.now inlined typing)) }
    ensures fits { IfOk result (λ ready. FitsTyping (certificate_with old policy.now inlined typing).typing) }
{
    let Inlined {
        program,
        mode,
        origins,
    } = inlined;
    drop(origins);
    let (program, certificate) = certified(alloc, old, policy, mode, program, typing)?;
    let ready = judged(alloc, folder, policy, &program, &certificate);
    drop(certificate);
    drop(program);
    ready
}

/// The program with an index of its classes, and its certificate, which tells these types.
fn certified(
    alloc: Global,
    old: List<LinkedClass>,
    policy: &Policy,
    mode: Mode,
    program: Program,
    typing: Typing,
) -> Result<(Indexed, Certificate), NoMemory>
    requires policy { IsPolicy policy.now }
    requires order { IsInOrder program }
    ensures program { IfOk result (λ made. made.0 ≡ program) }
    ensures certificate { IfOk result (λ made. made.1 ≡ certificate_of old policy.now mode (canonical program typing)) }
    ensures fits { IfOk result (λ made. FitsTyping made.1.typing) }
{
    let program = Indexed::new(alloc, program)?;
    let certificate = certificate_of(
        alloc,
        old.as_slice(),
        policy,
        mode,
        program.program(),
        typing,
    );
    drop(old);
    match certificate {
        Ok(certificate) => Ok((program, certificate)),
        Err(NoMemory) => {
            drop(program);
            Err(NoMemory)
        }
    }
}

/// The certificate of a woven program of these classes with these types.
fn certificate_of(
    alloc: Global,
    classes: &[LinkedClass],
    policy: &Policy,
    mode: Mode,
    program: &Program,
    typing: Typing,
) -> Result<Certificate, NoMemory>
    requires { IsPolicy policy.now }
    ensures is { IfOk result (λ made. made ≡ certificate_of classes.now policy.now mode (canonical program.now typing)) }
    // It can be told.
    ensures fits { IfOk result (λ made. FitsTyping made.typing) }
{
    let typing = canonical(alloc, program, typing)?;
    make(alloc, classes, policy, mode, typing)
}

/// What is to be written of a woven program, which is checked with its certificate.
fn judged(
    alloc: Global,
    folder: &Bytes,
    policy: &Policy,
    program: &Indexed,
    certificate: &Certificate,
) -> Result<Ready, Ended>
    requires linked { IsLinkedProgram program.now }
    requires policy { IsSoundFor program.now.listing policy.now }
    requires allowed { IsAllowed program.now policy.now certificate.now }
    ensures accepts { UnlessMemory (Accepts folder.now policy.now program.now certificate.now) result }
    ensures judged { IfOk result (IsJudgedReady folder.now policy.now program.now certificate.now) }
{
    let accepted = match check(alloc, program, policy, certificate) {
        Ok(accepted) => accepted,
        Err(Denial::Memory) => return Err(Ended::Memory),
        Err(_) => unreachable!(),
    };
    let program = program.program();
    let outputs = outputs_of(alloc, folder, program, certificate)?;
    Ok(Ready {
        outputs,
        accepted,
        classes: program.classes.len() as u64,
    })
}

/// The class files in their order, and after them the certificate.
fn outputs_of(
    alloc: Global,
    folder: &Bytes,
    program: &Program,
    certificate: &Certificate,
) -> Result<List<Output>, Ended>
    ensures is { UnlessMemory (Equals (outputs_step folder.now program.now certificate.now)) result }
    ensures written { IfOk result (λ outputs. is_written certificate.now ≡ true) }
    ensures outputs { IfOk result (λ outputs. outputs ≡ outputs_of folder.now program.now certificate.now) }
{
    let fault = match command_outputs::outputs_of(alloc, folder, program, certificate) {
        Ok(outputs) => return Ok(outputs),
        Err(fault) => fault,
    };
    let CertLong::Certificate { value } = fault else {
        return Err(Ended::Memory);
    };
    Err(Ended::Refused(Refusal::LongCertificate { value }))
}

/// To files in their grammars and limits that link to a program with types, with a policy that is woven in this mode and sizes that
/// fit, where the store tells them and counts no fault, `inline` writes everything, or answers that the certificate is too long,
/// unless memory runs out: its status is 0, 4 or 7.
pub fn inline_decides()
    ensures { InlineDecides }
{}

/// To what `inline` or `load` wrote, where the store tells it and counts no fault, `check` answers yes, unless memory runs out: its
/// status is 0 or 7.
pub fn written_is_accepted()
    ensures { WrittenIsAccepted }
{
    linked_programs_are_named();
}
