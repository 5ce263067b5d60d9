//! Writing class files. (The Java Virtual Machine Specification, chapter 4.)

ghost use Rattle.std.specs.Prelude.{◌≡◌, ℕ, List, ◌++◌, ◌∷◌, [], length, OnOk, IfOk};
ghost use Rattle.std.specs.List.{flat_map};
ghost use Rattle.mon_base.specs.Widths.{u1, u2, u4, u8};
ghost use Rattle.class_codec.specs.Encoding.{block, with_count, constant, table_entry, other};
ghost use Rattle.class_codec.specs.Encoding.{contents, attribute, member, body, encoding};
ghost use Rattle.class_codec.specs.Fits.{IsEncodable, EncodesClass};
ghost use Rattle.class_codec.specs.declared.tree.ClassFile.{ClassFile};

use crate::tree::{Attr, ClassFile, Code, Const, Member, Other, TableEntry};
use byteorder::{BigEndian, ByteOrder};
use mon_base::{Bytes, NoMemory};
use std::alloc::Global;

/// Appends the lowest two bytes of the number.
fn put_u2(out: &mut Bytes, n: usize) -> Result<(), NoMemory>
    ensures { OnOk result (out.new ≡ out.old ++ u2 n) }
{
    let mut bytes = [0u8; 8];
    BigEndian::write_u64(&mut bytes, n as u64);
    out.extend(&bytes[6..])
}

/// Appends the lowest four bytes of the number.
fn put_u4(out: &mut Bytes, n: usize) -> Result<(), NoMemory>
    ensures { OnOk result (out.new ≡ out.old ++ u4 n) }
{
    let mut bytes = [0u8; 8];
    BigEndian::write_u64(&mut bytes, n as u64);
    out.extend(&bytes[4..])
}

/// Appends the eight bytes of the number.
fn put_u8(out: &mut Bytes, n: u64) -> Result<(), NoMemory>
    ensures { OnOk result (out.new ≡ out.old ++ u8 n) }
{
    let mut bytes = [0u8; 8];
    BigEndian::write_u64(&mut bytes, n);
    out.extend(&bytes)
}

/// Appends four bytes of length, and the bytes.
fn put_block(out: &mut Bytes, bytes: &[u8]) -> Result<(), NoMemory>
    ensures { OnOk result (out.new ≡ out.old ++ block bytes.now) }
{
    put_u4(out, bytes.len())?;
    out.extend(bytes)
}

/// What is counted in a class file.
trait Encoded {
    ghost use Rattle.std.specs.Prelude.{ℕ, List};

    /// Its bytes.
    ghost encoded: { Self → List ℕ };

    /// Appends its bytes.
    fn put(&self, alloc: Global, out: &mut Bytes) -> Result<(), NoMemory>
        ensures { OnOk result (out.new ≡ out.old ++ encoded self.now) };
}

/// Appends two bytes of count, and the items.
fn put_counted<T: Encoded>(alloc: Global, out: &mut Bytes, items: &[T]) -> Result<(), NoMemory>
    ensures { OnOk result (out.new ≡ out.old ++ with_count T.encoded items.now) }
{
    put_u2(out, items.len())?;
    for item in items {
        item.put(alloc, out)?;
    }
    Ok(())
}

/// Appends a tag and an index.
fn put_index(out: &mut Bytes, tag: u8, index: u16) -> Result<(), NoMemory>
    ensures { OnOk result (out.new ≡ out.old ++ u1 tag ++ u2 index) }
{
    out.push(tag)?;
    put_u2(out, index as usize)
}

/// Appends a tag and two indices.
fn put_pair(out: &mut Bytes, tag: u8, first: u16, second: u16) -> Result<(), NoMemory>
    ensures { OnOk result (out.new ≡ out.old ++ u1 tag ++ u2 first ++ u2 second) }
{
    put_index(out, tag, first)?;
    put_u2(out, second as usize)
}

impl Encoded for Const {
    ghost encoded = { constant };

    fn put(&self, _alloc: Global, out: &mut Bytes) -> Result<(), NoMemory> {
        match self {
            Const::Utf8(text) => put_text(out, text.as_slice()),
            Const::Integer(n) => put_word(out, 3, n.cast_unsigned()),
            Const::Float(bits) => put_word(out, 4, *bits),
            Const::Long(n) => put_wide(out, 5, n.cast_unsigned()),
            Const::Double(bits) => put_wide(out, 6, *bits),
            Const::Class(name) => put_index(out, 7, *name),
            Const::Str(text) => put_index(out, 8, *text),
            Const::Field(class, name) => put_pair(out, 9, *class, *name),
            Const::Method(class, name) => put_pair(out, 10, *class, *name),
            Const::IMethod(class, name) => put_pair(out, 11, *class, *name),
            Const::NameAndType(name, desc) => put_pair(out, 12, *name, *desc),
            Const::Second => Ok(()),
        }
    }
}

/// Appends a text with its tag.
fn put_text(out: &mut Bytes, text: &[u8]) -> Result<(), NoMemory>
    ensures { OnOk result (out.new ≡ out.old ++ (u1 1 ++ u2 (length text.now) ++ text.now)) }
{
    out.push(1)?;
    put_u2(out, text.len())?;
    out.extend(text)
}

/// Appends a tag and four bytes.
fn put_word(out: &mut Bytes, tag: u8, bits: u32) -> Result<(), NoMemory>
    ensures { OnOk result (out.new ≡ out.old ++ u1 tag ++ u4 bits) }
{
    out.push(tag)?;
    put_u4(out, bits as usize)
}

/// Appends a tag and eight bytes.
fn put_wide(out: &mut Bytes, tag: u8, bits: u64) -> Result<(), NoMemory>
    ensures { OnOk result (out.new ≡ out.old ++ u1 tag ++ u8 bits) }
{
    out.push(tag)?;
    put_u8(out, bits)
}

impl Encoded for u16 {
    ghost encoded = { u2 };

    fn put(&self, _alloc: Global, out: &mut Bytes) -> Result<(), NoMemory> {
        put_u2(out, *self as usize)
    }
}

impl Encoded for TableEntry {
    ghost encoded = { table_entry };

    fn put(&self, _alloc: Global, out: &mut Bytes) -> Result<(), NoMemory> {
        put_u2(out, self.from as usize)?;
        put_u2(out, self.to as usize)?;
        put_u2(out, self.at as usize)?;
        put_u2(out, self.class as usize)
    }
}

impl Encoded for Other {
    ghost encoded = { other };

    fn put(&self, _alloc: Global, out: &mut Bytes) -> Result<(), NoMemory> {
        put_named(out, self.name, self.bytes.as_slice())
    }
}

/// Appends a Code attribute.
fn put_code(alloc: Global, out: &mut Bytes, code: &Code) -> Result<(), NoMemory>
    ensures { OnOk result (out.new ≡ out.old ++ (u2 code.now.name ++ block (contents code.now))) }
{
    let inner = contents_of(alloc, code)?;
    put_named(out, code.name, inner.as_slice())
}

/// Appends what stands in a Code attribute.
fn put_contents(alloc: Global, out: &mut Bytes, code: &Code) -> Result<(), NoMemory>
    ensures { OnOk result (out.new ≡ out.old ++ contents code.now) }
{
    put_u2(out, code.max_stack as usize)?;
    put_u2(out, code.max_locals as usize)?;
    put_block(out, code.code.as_slice())?;
    put_counted(alloc, out, code.table.as_slice())?;
    put_counted(alloc, out, code.attrs.as_slice())
}

/// What stands in a Code attribute, whose length stands before it.
fn contents_of(alloc: Global, code: &Code) -> Result<Bytes, NoMemory>
    ensures { IfOk result (λ bytes. bytes ≡ contents code.now) }
{
    let mut out = Bytes::new(alloc);
    put_contents(alloc, &mut out, code)?;
    Ok(out)
}

/// Appends an attribute, by the index of its name.
fn put_named(out: &mut Bytes, name: u16, bytes: &[u8]) -> Result<(), NoMemory>
    ensures { OnOk result (out.new ≡ out.old ++ (u2 name ++ block bytes.now)) }
{
    put_u2(out, name as usize)?;
    put_block(out, bytes)
}

impl Encoded for Attr {
    ghost encoded = { attribute };

    fn put(&self, alloc: Global, out: &mut Bytes) -> Result<(), NoMemory> {
        match self {
            Attr::Code(code) => put_code(alloc, out, code),
            Attr::Other(attribute) => attribute.put(alloc, out),
        }
    }
}

impl Encoded for Member {
    ghost encoded = { member };

    fn put(&self, alloc: Global, out: &mut Bytes) -> Result<(), NoMemory> {
        put_u2(out, self.flags as usize)?;
        put_u2(out, self.name as usize)?;
        put_u2(out, self.desc as usize)?;
        put_counted(alloc, out, self.attrs.as_slice())
    }
}

/// Appends what stands after the pool.
fn put_body(alloc: Global, out: &mut Bytes, file: &ClassFile) -> Result<(), NoMemory>
    ensures { OnOk result (out.new ≡ out.old ++ body file.now) }
{
    put_u2(out, file.flags as usize)?;
    put_u2(out, file.this_class as usize)?;
    put_u2(out, file.super_class as usize)?;
    put_counted(alloc, out, file.interfaces.as_slice())?;
    put_counted(alloc, out, file.fields.as_slice())?;
    put_counted(alloc, out, file.methods.as_slice())?;
    put_counted(alloc, out, file.attrs.as_slice())
}

/// Appends the class file.
fn put_file(alloc: Global, out: &mut Bytes, file: &ClassFile) -> Result<(), NoMemory>
    ensures { OnOk result (out.new ≡ out.old ++ encoding file.now) }
{
    put_u4(out, 0xCAFE_BABE)?;
    put_u2(out, file.minor as usize)?;
    put_u2(out, 49)?;
    put_counted(alloc, out, file.pool.as_slice())?;
    put_body(alloc, out, file)
}

/// The bytes of a class file, from its tree.
///
/// Where a list or a byte string of the tree is longer than its count can tell, the count's lowest bytes are written.
/// Such a tree is none of a class file.
pub fn encode(alloc: Global, file: &ClassFile) -> Result<Bytes, NoMemory>
    // The bytes are the tree's.
    ensures is { IfOk result (λ bytes. bytes ≡ encoding file.now) }
    // They are a class file, if the tree is one's.
    ensures encodes { IsEncodable file.now → IfOk result (λ bytes. EncodesClass bytes file.now) }
{
    let mut out = Bytes::new(alloc);
    put_file(alloc, &mut out, file)?;
    Ok(out)
}

/// A class file has one tree, and a tree one class file. (Nothing to run: the clauses are laws.)
pub fn one_tree()
    ensures tree { (bytes : List ℕ) (f g : ClassFile) → EncodesClass bytes f → EncodesClass bytes g → f ≡ g }
    ensures file { (a b : List ℕ) (f : ClassFile) → EncodesClass a f → EncodesClass b f → a ≡ b }
{}
