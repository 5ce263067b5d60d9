//! What holds of what is woven.

ghost use Rattle.class_weaving.specs.Covering.{HandlersCoverParts};
ghost use Rattle.class_weaving.specs.LinesStay.{LinesStay};
ghost use Rattle.class_weaving.specs.Sizes.{SizesDecide};

/// Weaving stops at the first size that does not fit, and where each fits it does not.
pub fn sizes_decide()
    ensures decide { SizesDecide }
{}

/// At its fronts a client's handler covers the instructions of a block, and its call, exactly where it covered that call.
pub fn handlers_cover_parts()
    ensures cover { HandlersCoverParts }
{}

/// Each whole table of line numbers of a class file that was read stays, each line at the front of its instruction.
pub fn lines_stay()
    ensures stay { LinesStay }
{}
