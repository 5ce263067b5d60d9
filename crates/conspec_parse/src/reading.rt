//! A policy out of its text.

ghost use Rattle.std.specs.Prelude.{◌≡◌, ◌<◌, ◌^◌, length, IfOk, MatchResult};
ghost use Rattle.conspec_parse.specs.declared.fault.PolicyFault.TheVariants as faults;
ghost use Rattle.mon_base.specs.Answer.{Answers};
ghost use Rattle.conspec_parse.specs.Meaning.{EncodesPolicy};
ghost use Rattle.conspec_parse.specs.Policy.{policy_at, reading};
ghost use Rattle.conspec_tree.specs.Tree.{IsPolicyTree};

use crate::clause::clauses_at;
use crate::fault::PolicyFault;
use crate::head::{header_at, variables_at};
use api_listing::{ListedMethod, Listing};
use conspec_tokens::{Token, front_at, is_end, tokens_of};
use conspec_tree::PolicyTree;
use mon_base::List;
use std::alloc::Global;

/// The policy that the text is over the methods of the listing, or the fault that stands first in the text.
pub fn parse(alloc: Global, text: &[u8], listing: &Listing) -> Result<PolicyTree, PolicyFault>
    requires { length listing.now.methods < 2 ^ 32 }
    // What is read decides the answer, and of several faults which one.
    ensures exact { Answers PolicyFault.Memory result (reading text.now listing.now) }
    // What is read is encoded so.
    ensures found { IfOk result (λ t. EncodesPolicy text.now listing.now t) }
    // What is encoded so is read, unless memory runs out.
    ensures only { (t : PolicyTree) → EncodesPolicy text.now listing.now t
        → MatchResult result (λ r. r ≡ t) (λ e. e ≡ faults.Memory) }
    // It keeps the limits and ranges, and what its parts name is there and can be asked.
    ensures sound { IfOk result (λ t. IsPolicyTree listing.now t) }
{
    let tokens = tokens_of(alloc, text)?;
    policy_at(alloc, listing.methods.as_slice(), tokens.as_slice())
}

#[tactic(auto, unfolding(crate::specs::Policy::policy_at))]
fn policy_at(
    alloc: Global,
    methods: &[ListedMethod],
    tokens: &[Token],
) -> Result<PolicyTree, PolicyFault>
    requires { length methods.now < 2 ^ 32 }
    ensures { Answers PolicyFault.Memory result (policy_at methods.now tokens.now) }
{
    let (maxint, left) = header_at(tokens)?;
    let mut vars = List::new(alloc);
    let left = variables_at(alloc, maxint, &mut vars, left)?;
    let mut clauses = List::new(alloc);
    let left = clauses_at(alloc, methods, vars.as_slice(), maxint, &mut clauses, left)?;
    if !is_end(left) {
        return Err(PolicyFault::Syntax { at: front_at(left) });
    }
    Ok(PolicyTree {
        maxint,
        vars,
        clauses,
    })
}
