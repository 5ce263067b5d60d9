//! Which instructions handlers cover.

ghost use Rattle.std.specs.Prelude.{◌≡◌};
ghost use Rattle.bytecode_model.specs.Rules.{covers};

use crate::program::Handler;

impl Handler {
    /// Whether the handler covers the instruction of this index. (The Java Virtual Machine Specification, section 4.7.3.)
    pub fn covers(&self, at: u32) -> bool
        ensures { result ≡ covers at self.now }
    {
        self.from <= at && at < self.to
    }
}
