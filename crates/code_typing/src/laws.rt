//! What holds of each typed program.

ghost use Rattle.code_typing.specs.Closed.{BeginsReached, GoesToReached, IsCaughtReached};
ghost use Rattle.code_typing.specs.Order.{
  FrameIsBelowItself,
  FramesAreInOrder,
  GoesKept,
  IsAloneKept,
  IsLeftKept,
  IsThrownKept,
};

/// The places with a frame are closed under control.
pub fn typed_is_closed()
    // Each method with code begins at one.
    ensures begin { BeginsReached }
    // From one, control goes to one.
    ensures next { GoesToReached }
    // What is thrown at one is caught at one.
    ensures caught { IsCaughtReached }
{}

/// What the rules ask of a frame alone, each frame below it meets, too, and leaves what is below what it leaves.
pub fn rows_follow_the_order()
    ensures alone { IsAloneKept }
    ensures left { IsLeftKept }
    ensures goes { GoesKept }
    ensures thrown { IsThrownKept }
    // Frames are in order.
    ensures reflexive { FrameIsBelowItself }
    ensures transitive { FramesAreInOrder }
{}
