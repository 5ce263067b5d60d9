//! What holds of the types of woven programs.

ghost use Rattle.woven_typing.specs.Telling.{ListingsKnowThrowable, PoliciesTell};
ghost use Rattle.woven_typing.specs.WovenTyping.{
  BlocksAreReachedSo,
  BlocksAreTold,
  ClientsAreTold,
  WovenIsTyped,
};

/// Where a policy tells the kinds of what its methods take and give, its automaton does.
pub fn policies_tell()
    ensures { PoliciesTell }
{}

/// Throwable is a class of each program with a listing that was read.
pub fn listings_know_throwable()
    ensures { ListingsKnowThrowable }
{}

/// What is woven of a typed program is typed: for each policy that was read, in both modes.
pub fn woven_is_typed()
    ensures { WovenIsTyped }
{}

/// An instruction without a block has the frame that it had, and is reached where it was.
pub fn clients_are_told()
    ensures { ClientsAreTold }
{}

/// An instruction of a block has the frame of its role, where the client's call has one.
pub fn blocks_are_told()
    ensures { BlocksAreTold }
{}

/// An instruction of a block has a frame exactly where the client's call has one and the role is reached.
pub fn items_are_reached()
    ensures { BlocksAreReachedSo }
{}
