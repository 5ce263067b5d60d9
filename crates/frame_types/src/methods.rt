//! What a method and a call tell of the object that they are called on.

ghost use Rattle.std.specs.Prelude.{◌≡◌};
ghost use Rattle.bytecode_model.specs.InsnPlace.{has_receiver, is_maker};

use bytecode_model::Method;
use insn_codec::How;

/// Whether the method makes an object.
pub fn is_maker(method: &Method) -> bool
    ensures { result ≡ is_maker method.now }
{
    method.name.as_slice() == b"<init>".as_slice()
}

/// Whether a call has a receiver.
pub fn has_receiver(how: How) -> bool
    ensures { result ≡ has_receiver how }
{
    match how {
        How::Static => false,
        How::Virtual | How::Special | How::Interface => true,
    }
}
