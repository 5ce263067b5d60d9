//! What holds of descriptors, and of what an instruction leaves.

ghost use Rattle.frame_types.specs.Agreeing.{DescriptorsAgree};
ghost use Rattle.frame_types.specs.Moving.{IsEffectTyped};

/// What an instruction that works on its frame alone leaves, where the rules 2 to 4 are met, is what its effect over the
/// types leaves.
pub fn typed_effect()
    ensures effect { IsEffectTyped }
{}

/// The types that are read off a method's descriptor are those that api_listing reads of it.
pub fn descriptors_agree()
    ensures agree { DescriptorsAgree }
{}
