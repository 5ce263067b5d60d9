//! What weaving makes, from the code of a method up to the class files.

use bytecode_model::{Method, Origin};
use class_codec::{ClassFile, Member};
use mon_base::List;
use offset_patch::Entries;

/// The members of a class that are made, with the constants that they need, the methods as a linked program has them, and where the
/// instructions of each code come from.
#[derive(Drop)]
pub struct Members {
    pub number: u32,
    pub entries: Entries,
    pub items: List<Member>,
    pub methods: List<Method>,
    pub origins: List<List<Origin>>,
}

/// Class files with blocks, the methods of each class as the program has them that the files link to, and for each class, each of its
/// methods with code and each instruction of that where it comes from. The last class is `conspec/State`.
#[derive(Drop)]
pub struct Woven {
    pub files: List<ClassFile>,
    pub methods: List<List<Method>>,
    pub origins: List<List<List<Origin>>>,
}
