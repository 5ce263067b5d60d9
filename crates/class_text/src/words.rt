//! Words of a line, each after a space.

ghost use Rattle.std.specs.Prelude.{◌≡◌, ◌++◌, ◌∷◌, map, OnOk};
ghost use Rattle.std.specs.Fmt.{decimal, signed_decimal};
ghost use Rattle.class_text.specs.Lines.{after_space, spaced, pool_word};

use mon_base::{Bytes, NoMemory, push_count, push_number};

/// Appends a word.
pub fn push_word(out: &mut Bytes, word: &[u8]) -> Result<(), NoMemory>
    ensures { OnOk result (out.new ≡ out.old ++ after_space word.now) }
{
    out.push(b' ')?;
    out.extend(word)
}

/// Appends a number that is not below 0.
pub fn push_count_word(out: &mut Bytes, n: u64) -> Result<(), NoMemory>
    ensures { OnOk result (out.new ≡ out.old ++ after_space (decimal n)) }
{
    out.push(b' ')?;
    push_count(out, n)
}

/// Appends a number.
pub fn push_number_word(out: &mut Bytes, n: i64) -> Result<(), NoMemory>
    ensures { OnOk result (out.new ≡ out.old ++ after_space (signed_decimal n)) }
{
    out.push(b' ')?;
    push_number(out, n)
}

/// Appends an index into the constant pool.
pub fn push_pool_word(out: &mut Bytes, index: u16) -> Result<(), NoMemory>
    ensures { OnOk result (out.new ≡ out.old ++ after_space (pool_word index)) }
{
    out.push(b' ')?;
    out.push(b'#')?;
    push_count(out, index as u64)
}

/// Appends numbers that are not below 0.
pub fn push_count_words(out: &mut Bytes, numbers: &[u32]) -> Result<(), NoMemory>
    ensures { OnOk result (out.new ≡ out.old ++ spaced (map decimal numbers.now)) }
{
    for n in numbers {
        push_count_word(out, *n as u64)?;
    }
    Ok(())
}

/// Appends numbers.
pub fn push_number_words(out: &mut Bytes, numbers: &[i32]) -> Result<(), NoMemory>
    ensures { OnOk result (out.new ≡ out.old ++ spaced (map signed_decimal numbers.now)) }
{
    for n in numbers {
        push_number_word(out, *n as i64)?;
    }
    Ok(())
}
