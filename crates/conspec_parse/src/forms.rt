//! The forms in which tokens are read, one after another.

ghost use Rattle.std.specs.Prelude.{◌≡◌};
ghost use Rattle.mon_base.specs.Answer.{AnswersAs};
ghost use Rattle.conspec_parse.specs.Forms.{following, name_at, number_at, is_short};

use crate::fault::PolicyFault;
use conspec_tokens::{Token, front_at, is_next, next_name, next_number, rest_of};

/// The tokens after this keyword or sign, which has to stand first.
pub fn following<'a>(text: &str, tokens: &'a [Token]) -> Result<&'a [Token], PolicyFault>
    ensures { AnswersAs PolicyFault.Memory (λ r. r.now) result (following text.now tokens.now) }
{
    if !is_next(text, tokens) {
        return Err(PolicyFault::Syntax {
            at: front_at(tokens),
        });
    }
    Ok(rest_of(tokens))
}

/// The name that has to stand first, and the tokens after it.
pub fn name_at(tokens: &[Token]) -> Result<(&[u8], &[Token]), PolicyFault>
    ensures { AnswersAs PolicyFault.Memory (λ r. (r.0.now, r.1.now)) result (name_at tokens.now) }
{
    let Some(name) = next_name(tokens) else {
        return Err(PolicyFault::Syntax {
            at: front_at(tokens),
        });
    };
    Ok((name, rest_of(tokens)))
}

/// The number that has to stand first, and the tokens after it.
pub fn number_at(tokens: &[Token]) -> Result<(u64, &[Token]), PolicyFault>
    ensures { AnswersAs PolicyFault.Memory (λ r. (r.0, r.1.now)) result (number_at tokens.now) }
{
    let Some(number) = next_number(tokens) else {
        return Err(PolicyFault::Syntax {
            at: front_at(tokens),
        });
    };
    Ok((number, rest_of(tokens)))
}

/// At most 64 bytes are not too many for a name.
pub fn is_short(name: &[u8]) -> bool
    ensures { result ≡ is_short name.now }
{
    name.len() <= 64
}
