//! What holds of shapes, of their effect and of where control goes.

ghost use Rattle.std.specs.Prelude.{◌≡◌, ◌∷◌, Bool, List, Some};
ghost use Rattle.insn_codec.specs.Control.{View};
ghost use Rattle.insn_codec.specs.declared.forms.StackForm.TheVariants.{Pop, Pop2, Dup, DupX1, DupX2, Dup2, Dup2X1, Dup2X2, Swap};
ghost use Rattle.insn_codec.specs.Effect.{Domain, moved_by};
ghost use Rattle.insn_codec.specs.Following.{Respects, Follows};
ghost use Rattle.insn_codec.specs.Table.{MarkedAlike, GoesOnAlike, NopAlone, GoesToSuccessor};

/// Where values respect their types, an instruction that works on its frame alone and that the types allow works on
/// the values too, and leaves values of the types that it leaves: no operand is missing or of another kind.
pub fn effect_follows<V, T>()
    ensures follows { (values : Domain V) (types : Domain T) (of : V → T → Bool) → Respects values types of → Follows values types of }
{}

/// The instructions that the table of opcodes marks as working on their frame alone are those whose shape does, control
/// can go on after those whose shape says so, and `nop` alone does nothing: no opcode is forgotten.
pub fn shapes_are_the_tables()
    ensures marked { MarkedAlike }
    ensures goes_on { GoesOnAlike }
    ensures nop { NopAlone }
{}

/// Control goes to the next instruction where the table says that it can go on, or to a target of the instruction.
pub fn control_goes_to_successor<V>()
    ensures goes { (view : View V) → GoesToSuccessor view }
{}

/// What each form makes of the topmost operands, the top first.
pub fn operands_move<V>()
    ensures pop { (a : V) (s : List V) → moved_by Pop (a ∷ s) ≡ Some s }
    ensures pop2 { (a b : V) (s : List V) → moved_by Pop2 (a ∷ b ∷ s) ≡ Some s }
    ensures dup { (a : V) (s : List V) → moved_by Dup (a ∷ s) ≡ Some (a ∷ a ∷ s) }
    ensures dup_x1 { (a b : V) (s : List V) → moved_by DupX1 (a ∷ b ∷ s) ≡ Some (a ∷ b ∷ a ∷ s) }
    ensures dup_x2 { (a b c : V) (s : List V) → moved_by DupX2 (a ∷ b ∷ c ∷ s) ≡ Some (a ∷ b ∷ c ∷ a ∷ s) }
    ensures dup2 { (a b : V) (s : List V) → moved_by Dup2 (a ∷ b ∷ s) ≡ Some (a ∷ b ∷ a ∷ b ∷ s) }
    ensures dup2_x1 { (a b c : V) (s : List V) → moved_by Dup2X1 (a ∷ b ∷ c ∷ s) ≡ Some (a ∷ b ∷ c ∷ a ∷ b ∷ s) }
    ensures dup2_x2 { (a b c d : V) (s : List V) → moved_by Dup2X2 (a ∷ b ∷ c ∷ d ∷ s) ≡ Some (a ∷ b ∷ c ∷ d ∷ a ∷ b ∷ s) }
    ensures swap { (a b : V) (s : List V) → moved_by Swap (a ∷ b ∷ s) ≡ Some (b ∷ a ∷ s) }
{}
