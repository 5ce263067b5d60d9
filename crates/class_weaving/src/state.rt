//! The class file of `conspec/State`.

ghost use Rattle.std.specs.Prelude.{◌≡◌, ◌∷◌, [], ◌+◌, ◌*◌, ◌++◌, ◌<◌, ◌≤◌, IfOk, OnOk, length};
ghost use Rattle.byteorder.specs.Endian.{big_bytes};
ghost use Rattle.class_codec.specs.declared.tree.Const.TheVariants.{Utf8};
ghost use Rattle.class_weaving.specs.State.{head, values_from, variable_text};
ghost use Rattle.class_weaving.specs.State.{kind_text, field, fields_from, state_file};
ghost use Rattle.offset_patch.specs.Entries.{variable_name};

use byteorder::{BigEndian, ByteOrder};
use class_codec::{Attr, ClassFile, Const, Member, Other};
use conspec_tree::Var;
use mon_base::{Bytes, List, NoMemory, push_count};
use std::alloc::Global;

/// The class file of these variables.
pub fn state_file(alloc: Global, vars: &[Var]) -> Result<ClassFile, NoMemory>
    requires { length vars.now ≤ 10000 }
    ensures { IfOk result (λ file. file ≡ state_file vars.now) }
{
    let mut pool = head(alloc)?;
    put_values(alloc, &mut pool, vars)?;
    let fields = fields(alloc, vars)?;
    Ok(ClassFile {
        minor: 0,
        pool,
        flags: 0x0021,
        this_class: 2,
        super_class: 4,
        interfaces: List::new(alloc),
        fields,
        methods: List::new(alloc),
        attrs: List::new(alloc),
    })
}

/// The constants that each such class has.
fn head(alloc: Global) -> Result<List<Const>, NoMemory>
    ensures { IfOk result (λ pool. pool ≡ head) }
{
    let mut pool = List::new(alloc);
    pool.push(Const::Second)?;
    put_text(alloc, &mut pool, "conspec/State")?;
    pool.push(Const::Class(1))?;
    put_text(alloc, &mut pool, "java/lang/Object")?;
    pool.push(Const::Class(3))?;
    put_text(alloc, &mut pool, "ConstantValue")?;
    put_text(alloc, &mut pool, "I")?;
    put_text(alloc, &mut pool, "Z")?;
    Ok(pool)
}

fn put_text(alloc: Global, pool: &mut List<Const>, text: &str) -> Result<(), NoMemory>
    ensures { OnOk result (pool.new ≡ pool.old ++ Utf8 text.now ∷ []) }
{
    let text = Bytes::from_slice(alloc, text.as_bytes())?;
    pool.push(Const::Utf8(text))
}

/// Appends the name and the first value of each variable.
fn put_values(alloc: Global, pool: &mut List<Const>, vars: &[Var]) -> Result<(), NoMemory>
    requires { length vars.now ≤ 10000 }
    ensures { OnOk result (pool.new ≡ pool.old ++ values_from 0 vars.now) }
{
    let mut index: u16 = 0;
    let mut left = vars;
    while let [var, rest @ ..] = left {
        pool.push(variable_name(alloc, index)?)?;
        pool.push(Const::Integer(var.first))?;
        index += 1;
        left = rest;
    }
    Ok(())
}

fn variable_name(alloc: Global, index: u16) -> Result<Const, NoMemory>
    ensures { IfOk result (λ constant. constant ≡ Utf8 (variable_name index)) }
{
    let mut name = Bytes::from_slice(alloc, b"v".as_slice())?;
    push_count(&mut name, u64::from(index))?;
    Ok(Const::Utf8(name))
}

/// The fields of the variables.
fn fields(alloc: Global, vars: &[Var]) -> Result<List<Member>, NoMemory>
    requires { length vars.now ≤ 10000 }
    ensures { IfOk result (λ fields. fields ≡ fields_from 0 vars.now) }
{
    let mut fields = List::new(alloc);
    let mut index: u16 = 0;
    let mut left = vars;
    while let [var, rest @ ..] = left {
        let one = field(alloc, index, var)?;
        fields.push(one)?;
        index += 1;
        left = rest;
    }
    Ok(fields)
}

/// The field of a variable, whose value at first is a `ConstantValue`.
fn field(alloc: Global, index: u16, var: &Var) -> Result<Member, NoMemory>
    requires { index < 10000 }
    ensures { IfOk result (λ member. member ≡ field index var.now) }
{
    let name = 8 + 2 * index;
    let mut attrs = List::new(alloc);
    attrs.push(Attr::Other(Other {
        name: 5,
        bytes: two_bytes(alloc, name + 1)?,
    }))?;
    Ok(Member {
        flags: 0x0009,
        name,
        desc: if var.is_bool { 7 } else { 6 },
        attrs,
    })
}

fn two_bytes(alloc: Global, n: u16) -> Result<Bytes, NoMemory>
    ensures { IfOk result (λ bytes. bytes ≡ big_bytes 2 n) }
{
    let mut bytes = [0u8; 2];
    BigEndian::write_u16(&mut bytes, n);
    Bytes::from_slice(alloc, &bytes)
}
