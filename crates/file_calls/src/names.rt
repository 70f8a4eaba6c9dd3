//! [`FolderNames`] are the names in a folder, and the files to which they lead.

ghost use Rattle.std.specs.Prelude.{◌≡◌, ◌⊎◌, ◌∷◌, [], ◌++◌, List, None, map, IfErr, IfOk, OnErr};
ghost use Rattle.std.specs.Prelude.{OnOk};
ghost use Rattle.file_calls.specs.Names.{Creates, NameStep, Renames, leads, new_step};
ghost use Rattle.file_calls.specs.Names.{settled_step};
ghost use Rattle.file_calls.specs.declared.places.Place.TheVariants.{Durable, Lost};

use crate::open_files::CallFailed;

/// The names in a folder. A file is known by its number, its inode. Nobody else changes the names.
///
/// A change can be seen at once, but is durable only after a sync of the folder. If that sync
/// fails, the change is lost for good, as in [`crate::OpenFile`], until the name changes again.
pub trait FolderNames {
    /// What was done to the names, oldest first.
    ghost steps: { Self → List NameStep };

    /// Whether they keep the promises about the names.
    ghost keeps: { Self → Type 0 };

    /// Returns the file to which a name leads, or `None` if it leads nowhere.
    fn found(&mut self, name: &str) -> Result<Option<u64>, CallFailed>
        ensures kept { keeps self.old → keeps self.new }
        ensures same { keeps self.old → steps self.new ≡ steps self.old }
        ensures found { keeps self.old
            → IfOk result (λ file. file ≡ leads (steps self.old) name.now) };

    /// Creates a file, and returns its number. It fails if the name leads to one.
    fn create_new(&mut self, name: &str) -> Result<u64, CallFailed>
        ensures kept { keeps self.old → keeps self.new }
        ensures creates { keeps self.old → IfOk result (λ file.
            Creates name.now file (steps self.old) (steps self.new)) }
        ensures failed { keeps self.old → OnErr result (steps self.new ≡ steps self.old) };

    /// Lets the name `to` lead to the file to which `from` leads, in place of the file to which it
    /// led, if any. Nobody knows after a failure whether that was done.
    fn rename(&mut self, from: &str, to: &str) -> Result<(), CallFailed>
        ensures kept { keeps self.old → keeps self.new }
        ensures renames { keeps self.old
            → OnOk result (Renames from.now to.now (steps self.old) (steps self.new)) }
        ensures failed { keeps self.old → OnErr result ((steps self.new ≡ steps self.old)
            ⊎ Renames from.now to.now (steps self.old) (steps self.new)) };

    /// Lets the name lead nowhere. Nobody knows after a failure whether that was done.
    fn remove(&mut self, name: &str) -> Result<(), CallFailed>
        ensures kept { keeps self.old → keeps self.new }
        ensures removes { keeps self.old → OnOk result
            (steps self.new ≡ steps self.old ++ new_step name.now None ∷ []) }
        ensures failed { keeps self.old → OnErr result ((steps self.new ≡ steps self.old)
            ⊎ (steps self.new ≡ steps self.old ++ new_step name.now None ∷ [])) };

    /// Makes durable what was done to the names. If it fails, that is lost.
    fn sync(&mut self) -> Result<(), CallFailed>
        ensures kept { keeps self.old → keeps self.new }
        ensures durable { keeps self.old → OnOk result
            (steps self.new ≡ map (settled_step Durable) (steps self.old)) }
        ensures lost { keeps self.old → OnErr result
            (steps self.new ≡ map (settled_step Lost) (steps self.old)) };
}
