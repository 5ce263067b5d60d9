//! Texts of a constant pool.

ghost use Rattle.std.specs.Prelude.{◌≡◌, IfOk, bytes_eq};
ghost use Rattle.bytecode_model.specs.Heads.{text_at, class_at};
ghost use Rattle.bytecode_model.specs.Operands.{id_at};

use class_codec::{Const, class_name_at, name_and_type_at, utf8_at};
use mon_base::{Bytes, MethodId, NoMemory};
use std::alloc::Global;

/// Whether the bytes are the text.
pub fn is_text(bytes: &[u8], text: &str) -> bool
    ensures { result ≡ bytes_eq bytes.now text.now }
{
    bytes == text.as_bytes()
}

/// The text that the index names, or none.
pub fn text_at(pool: &[Const], index: u16) -> &[u8]
    ensures { result.now ≡ text_at pool.now index }
{
    match utf8_at(pool, index) {
        Some(text) => text.as_slice(),
        None => b"".as_slice(),
    }
}

/// A copy of the text that the index names.
pub fn copy_text(alloc: Global, pool: &[Const], index: u16) -> Result<Bytes, NoMemory>
    ensures { IfOk result (λ text. text ≡ text_at pool.now index) }
{
    Bytes::from_slice(alloc, text_at(pool, index))
}

/// The name of the class that the index names, or none.
pub fn class_at(pool: &[Const], index: u16) -> &[u8]
    ensures { result.now ≡ class_at pool.now index }
{
    match class_name_at(pool, index) {
        Some(name) => name.as_slice(),
        None => b"".as_slice(),
    }
}

/// A copy of the name of the class that the index names.
pub fn copy_class(alloc: Global, pool: &[Const], index: u16) -> Result<Bytes, NoMemory>
    ensures { IfOk result (λ name. name ≡ class_at pool.now index) }
{
    Bytes::from_slice(alloc, class_at(pool, index))
}

/// What a reference tells.
pub fn id_at(alloc: Global, pool: &[Const], class: u16, member: u16) -> Result<MethodId, NoMemory>
    ensures { IfOk result (λ id. id ≡ id_at pool.now class member) }
{
    let class = copy_class(alloc, pool, class)?;
    let Some((name, desc)) = name_and_type_at(pool, member) else {
        return Ok(MethodId {
            class,
            name: Bytes::new(alloc),
            desc: Bytes::new(alloc),
        });
    };
    let name = name.copy(alloc)?;
    let desc = desc.copy(alloc)?;
    Ok(MethodId { class, name, desc })
}
