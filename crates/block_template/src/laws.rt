//! What is true of all blocks.

ghost use Rattle.block_template.specs.Denial.{DenialIsBlock};
ghost use Rattle.block_template.specs.Flow.{BlocksFlow};
ghost use Rattle.block_template.specs.Forward.{BlocksGoForward};
ghost use Rattle.block_template.specs.Good.{PlansAreGood};
ghost use Rattle.block_template.specs.Reached.{BlocksAreReached};
ghost use Rattle.block_template.specs.Typed.{
  BlocksAreTyped,
  CallsAreTyped,
  CatchesAreTyped,
  ClausesAreAsked,
  ItemsAreTyped,
};

/// In mode release a policy that denies calls outright stops the program before each call that it names.
pub fn denial_is_block()
    ensures { DenialIsBlock }
{}

/// The plan of each policy that was read can be spliced, in both modes.
pub fn plans_are_good()
    ensures { PlansAreGood }
{}

/// Control goes in each block as the graph of roles tells: of each item that is reached, the instruction is its role's, what
/// stands after it and where it jumps have the roles that the graph tells, and so have the block's front and its handler.
pub fn blocks_flow()
    ensures { BlocksFlow }
{}

/// Each jump of a block goes to a place after it.
pub fn blocks_go_forward()
    ensures { BlocksGoForward }
{}

/// From an instruction of a block that is reached control comes to such alone.
pub fn blocks_are_reached()
    ensures { BlocksAreReached }
{}

/// Each instruction of a block meets the rules of typing, with the types that its role tells of those before the call and after
/// it, in a method with room for them; what comes after it takes what it leaves, and so does what it jumps to.
pub fn blocks_are_typed()
    ensures { BlocksAreTyped }
{}

/// What takes the client's locals as they are caught before the call, or after it, takes those of each instruction of a block.
pub fn catches_are_typed()
    ensures { CatchesAreTyped }
{}

/// The call itself meets the rules in its block where it did without, and what comes where it returns or throws takes what it leaves.
pub fn calls_are_typed()
    ensures { CallsAreTyped }
{}

/// Each instruction of a block that is reached, but the call, meets the rules with the types of its role; what stands after it, or
/// where it jumps, has types that take what it leaves.
pub fn items_are_typed()
    ensures { ItemsAreTyped }
{}

/// The clauses of each policy that was read are such as these laws ask for.
pub fn clauses_are_asked()
    ensures { ClausesAreAsked }
{}
