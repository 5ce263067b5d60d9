//! Numbers and byte strings at a place of the certificate.

ghost use Rattle.mon_base.specs.Answer.{Reads, ReadsAs};
ghost use Rattle.cert_format.specs.Reading.{u1_at, u2_at, u4_at, i4_at, taken_at, flag_at};

use crate::fault::CertForm;
use mon_base::Cursor;

/// A number of one byte.
#[tactic(auto, unfolding(crate::specs::Reading::u1_at))]
pub fn u1(from: &mut Cursor) -> Result<u8, CertForm>
    ensures { Reads CertForm.Memory result (u1_at from.old) from.new }
{
    let at = from.position();
    from.u1().ok_or(CertForm::Form { at })
}

/// A number of two bytes.
#[tactic(auto, unfolding(crate::specs::Reading::u2_at))]
pub fn u2(from: &mut Cursor) -> Result<u16, CertForm>
    ensures { Reads CertForm.Memory result (u2_at from.old) from.new }
{
    let at = from.position();
    from.u2().ok_or(CertForm::Form { at })
}

/// A number of four bytes.
#[tactic(auto, unfolding(crate::specs::Reading::u4_at))]
pub fn u4(from: &mut Cursor) -> Result<u32, CertForm>
    ensures { Reads CertForm.Memory result (u4_at from.old) from.new }
{
    let at = from.position();
    from.u4().ok_or(CertForm::Form { at })
}

/// A number of four bytes with a sign.
#[tactic(auto, unfolding(crate::specs::Reading::i4_at))]
pub fn i4(from: &mut Cursor) -> Result<i32, CertForm>
    ensures { Reads CertForm.Memory result (i4_at from.old) from.new }
{
    let n = u4(from)?;
    Ok(n.cast_signed())
}

/// The next `n` bytes.
#[tactic(auto, unfolding(crate::specs::Reading::taken_at))]
pub fn taken<'a>(n: usize, from: &mut Cursor<'a>) -> Result<&'a [u8], CertForm>
    ensures { ReadsAs CertForm.Memory (λ b. b.now) result (taken_at n from.old) from.new }
{
    let at = from.position();
    from.take(n).ok_or(CertForm::Form { at })
}

/// A flag: a byte that is 0 or 1.
#[tactic(auto, unfolding(crate::specs::Reading::flag_at))]
pub fn flag(from: &mut Cursor) -> Result<bool, CertForm>
    ensures { Reads CertForm.Memory result (flag_at from.old) from.new }
{
    let at = from.position();
    let number = u1(from)?;
    match number {
        0 => Ok(false),
        1 => Ok(true),
        _ => Err(CertForm::Form { at }),
    }
}
