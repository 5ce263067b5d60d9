//! What holds of types in order.

ghost use Rattle.type_lattice.specs.Laws.{IsMergeAbove, IsMergeLeast, IsReflexive, IsThrownAlone, IsTransitive};

/// Assignability is an order of the types of a program whose classes are in order.
pub fn assignable_is_an_order()
    ensures reflexive { IsReflexive }
    ensures transitive { IsTransitive }
    ensures thrown { IsThrownAlone }
{}

/// The merge of two types is the least to which both are assignable, in a program whose classes are in order.
pub fn merge_is_the_least()
    ensures above { IsMergeAbove }
    ensures least { IsMergeLeast }
{}
