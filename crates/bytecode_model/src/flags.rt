//! The access flags that are read of classes, fields and methods; no other has a meaning here. (The Java Virtual Machine
//! Specification, tables 4.1, 4.4 and 4.5.)

ghost use Rattle.std.specs.Prelude.{◌≡◌};
ghost use Rattle.bytecode_model.specs.Heads.{has_flag, is_abstract, is_interface, is_native, is_public, is_static, is_synchronized};

const PUBLIC: u16 = 0x0001;

const STATIC: u16 = 0x0008;

const SYNCHRONIZED: u16 = 0x0020;

const NATIVE: u16 = 0x0100;

const INTERFACE: u16 = 0x0200;

const ABSTRACT: u16 = 0x0400;

/// Whether a class, a field or a method is public.
pub fn is_public(flags: u16) -> bool
    ensures { result ≡ is_public flags }
{
    has_flag(flags, PUBLIC)
}

/// Whether a field or a method is static.
pub fn is_static(flags: u16) -> bool
    ensures { result ≡ is_static flags }
{
    has_flag(flags, STATIC)
}

/// Whether a method is synchronized.
pub fn is_synchronized(flags: u16) -> bool
    ensures { result ≡ is_synchronized flags }
{
    has_flag(flags, SYNCHRONIZED)
}

/// Whether a method is native.
pub fn is_native(flags: u16) -> bool
    ensures { result ≡ is_native flags }
{
    has_flag(flags, NATIVE)
}

/// Whether a class is an interface.
pub fn is_interface(flags: u16) -> bool
    ensures { result ≡ is_interface flags }
{
    has_flag(flags, INTERFACE)
}

/// Whether a method is abstract.
pub fn is_abstract(flags: u16) -> bool
    ensures { result ≡ is_abstract flags }
{
    has_flag(flags, ABSTRACT)
}

/// Whether the flags have this one.
fn has_flag(flags: u16, flag: u16) -> bool
    ensures { result ≡ has_flag flag flags }
{
    flags & flag != 0
}
