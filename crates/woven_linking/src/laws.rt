//! What holds of what is woven.

ghost use Rattle.woven_linking.specs.Links.{OriginalIsFree, WovenLinks};
ghost use Rattle.woven_linking.specs.Origins.{OriginsAreLaidOut, OriginsAreTrue};
ghost use Rattle.woven_linking.specs.Program.{
  WovenFilesComeBack,
  WovenFilesHaveRoom,
  WovenProgramIsLinked,
  WovenProgramIsSound,
};

/// Class files that were woven link to the program with its blocks.
pub fn woven_files_link()
    ensures links { WovenLinks }
{}

/// What a compiler's class files link to names nothing of what the tool keeps for itself.
pub fn original_is_free()
    ensures free { OriginalIsFree }
{}

/// Each origin is true of its instruction.
pub fn origins_are_true()
    ensures true_of { OriginsAreTrue }
{}

/// There is an origin for each instruction, and each instruction stands where its origin tells.
pub fn origins_are_laid_out()
    ensures laid { OriginsAreLaidOut }
{}

/// Class files that were woven link to the program that is made of them. It is sound, and there is room for its blocks.
pub fn woven_program_is_linked()
    ensures linked { WovenProgramIsLinked }
    ensures back { WovenFilesComeBack }
    ensures room { WovenFilesHaveRoom }
    ensures sound { WovenProgramIsSound }
{}
