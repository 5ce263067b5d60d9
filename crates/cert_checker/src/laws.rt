//! What the promise of the checker rules out.

ghost use Rattle.cert_checker.specs.Denied.{DisobeysAtOnce};

use conspec_automaton::modes_differ;
use guest_model::sees_the_first_call;

/// The promise is not empty: a program whose `main` begins with a call that its policy refuses does not obey.
pub fn denied_call_disobeys()
    ensures disobeys { DisobeysAtOnce }
{
    modes_differ();
    sees_the_first_call();
}
