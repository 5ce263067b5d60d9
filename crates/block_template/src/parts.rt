//! The parts of blocks that hold no test: the lock, and what is kept and given back.

ghost use Rattle.std.specs.Prelude.{◌≡◌, ◌+◌, ◌++◌, ◌∷◌, ◌<◌, ◌^◌, [], OnOk, length, map};
ghost use Rattle.block_template.specs.Blocks.{kept};
ghost use Rattle.block_template.specs.Parts.{give, if_reached, item, keep, loads, lock, save, stop, unlock, unreached};

use crate::item::{Item, Role};
use crate::pushing::{load, store};
use conspec_tree::{Kind, Phase};
use insn_codec::opcodes::{ACONST_NULL, ATHROW, INVOKESTATIC, LDC_W, MONITORENTER, MONITOREXIT};
use mon_base::{List, NoMemory};
use offset_patch::{BlockInsn, PoolWant};

/// The value with which a program ends that is stopped.
const EXIT_VALUE: i8 = 77;

/// `ldc_w conspec/State`.
const STATE_CLASS: BlockInsn = BlockInsn::Want {
    op: LDC_W,
    want: PoolWant::StateClass,
};

/// Appends an instruction.
pub fn put(items: &mut List<Item>, insn: BlockInsn, role: Role) -> Result<(), NoMemory>
    ensures { OnOk result (items.new ≡ items.old ++ item insn role ∷ []) }
{
    items.push(Item { insn, role })
}

/// `ldc_w conspec/State; monitorenter`.
pub fn put_lock(items: &mut List<Item>, phase: Phase) -> Result<(), NoMemory>
    ensures { OnOk result (items.new ≡ items.old ++ lock phase) }
{
    let pushed = false;
    put(items, STATE_CLASS, Role::Lock { phase, pushed })?;
    let pushed = true;
    put(
        items,
        BlockInsn::Plain(MONITORENTER),
        Role::Lock { phase, pushed },
    )
}

/// `ldc_w conspec/State; monitorexit`.
pub fn put_unlock(items: &mut List<Item>, phase: Phase, checked: bool) -> Result<(), NoMemory>
    ensures { OnOk result (items.new ≡ items.old ++ unlock phase checked) }
{
    let before = Role::Unlock {
        phase,
        checked,
        pushed: false,
    };
    put(items, STATE_CLASS, before)?;
    let last = Role::Unlock {
        phase,
        checked,
        pushed: true,
    };
    put(items, BlockInsn::Plain(MONITOREXIT), last)?;
    Ok(())
}

/// `bipush 77; invokestatic java/lang/System.exit (I)V; aconst_null; athrow`.
pub fn put_stop(items: &mut List<Item>, phase: Phase) -> Result<(), NoMemory>
    ensures { OnOk result (items.new ≡ items.old ++ stop phase) }
{
    let exit = BlockInsn::Want {
        op: INVOKESTATIC,
        want: PoolWant::Exit,
    };
    let value = BlockInsn::Byte(EXIT_VALUE);
    put(items, value, Role::Stop { phase, done: 0 })?;
    put(items, exit, Role::Stop { phase, done: 1 })?;
    let null = BlockInsn::Plain(ACONST_NULL);
    put(items, null, Role::Stop { phase, done: 2 })?;
    let throw = BlockInsn::Plain(ATHROW);
    put(items, throw, Role::Stop { phase, done: 3 })
}

/// Appends the stores of the arguments into locals from `base` on, the last first.
pub fn put_save(items: &mut List<Item>, base: u16, arguments: &[Kind]) -> Result<(), NoMemory>
    requires { base + length arguments.now < 2 ^ 16 }
    ensures { OnOk result (items.new ≡ items.old ++ save base 0 arguments.now) }
{
    let mut left = arguments.len();
    while left > 0 {
        let insn = store(arguments[left - 1], base + (left - 1) as u16);
        put(items, insn, Role::Save { left: left as u32 })?;
        left -= 1;
    }
    Ok(())
}

/// Appends the loads of the arguments in their order.
pub fn put_loads(
    items: &mut List<Item>,
    locked: bool,
    base: u16,
    arguments: &[Kind],
) -> Result<(), NoMemory>
    requires { base + length arguments.now < 2 ^ 16 }
    ensures { OnOk result (items.new ≡ items.old ++ loads locked base 0 arguments.now) }
{
    let mut loaded: u16 = 0;
    let mut left = arguments;
    while let [kind, rest @ ..] = left {
        let role = Role::Load {
            loaded: u32::from(loaded),
            locked,
        };
        put(items, load(*kind, base + loaded), role)?;
        loaded += 1;
        left = rest;
    }
    Ok(())
}

/// Appends the store of the result, where there is one.
pub fn put_keep(
    items: &mut List<Item>,
    locked: bool,
    base: u16,
    kind: Option<Kind>,
) -> Result<(), NoMemory>
    ensures { OnOk result (items.new ≡ items.old ++ keep locked base kind) }
{
    match kind {
        Some(kind) => put(items, store(kind, base), Role::Keep { locked }),
        None => Ok(()),
    }
}

/// Appends its load.
pub fn put_give(items: &mut List<Item>, base: u16, kind: Option<Kind>) -> Result<(), NoMemory>
    ensures { OnOk result (items.new ≡ items.old ++ give base kind) }
{
    match kind {
        Some(kind) => put(items, load(kind, base), Role::Give),
        None => Ok(()),
    }
}

/// How many instructions keep a result.
pub fn kept(kind: Option<Kind>) -> u32
    ensures { result ≡ kept kind }
{
    match kind {
        Some(_) => 1,
        None => 0,
    }
}

/// Appends a part, which control comes to or does not.
pub fn put_if_reached(items: &mut List<Item>, reached: bool, part: &[Item]) -> Result<(), NoMemory>
    ensures { OnOk result (items.new ≡ items.old ++ if_reached reached part.now) }
{
    if reached {
        put_all(items, part)
    } else {
        put_unreached(items, part)
    }
}

fn put_all(items: &mut List<Item>, part: &[Item]) -> Result<(), NoMemory>
    ensures { OnOk result (items.new ≡ items.old ++ part.now) }
{
    for item in part {
        items.push(*item)?;
    }
    Ok(())
}

fn put_unreached(items: &mut List<Item>, part: &[Item]) -> Result<(), NoMemory>
    ensures { OnOk result (items.new ≡ items.old ++ map unreached part.now) }
{
    for item in part {
        put(items, item.insn, Role::Unreached)?;
    }
    Ok(())
}
