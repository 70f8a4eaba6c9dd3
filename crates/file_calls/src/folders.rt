//! A [`Folder`] is a folder and the files in it, whose calls have one past.

ghost use Rattle.std.specs.Prelude.{◌≡◌, ◌≤◌, ◌⊎◌, ◌∷◌, [], ◌++◌, ◌+◌, List, ℕ, None, Some, map};
ghost use Rattle.std.specs.Prelude.{IfErr, IfOk, OnErr, OnOk, length, slice_range};
ghost use Rattle.file_calls.specs.Folders.{AreSame, CreatesFile, FolderCall, FolderState, IsOnly};
ghost use Rattle.file_calls.specs.Folders.{IsSameFolder, PastGoesOn, ToCreate, ToFollow};
ghost use Rattle.file_calls.specs.Folders.{ToIdentify, ToLookUp, ToRemove, ToSync};
ghost use Rattle.file_calls.specs.Names.{Renames, leads, new_step, settled_step};
ghost use Rattle.file_calls.specs.OpenFiles.{IsSame, Settles, Writes};
ghost use Rattle.file_calls.specs.declared.places.Place.TheVariants.{Durable, Lost};

/// The identity of a file, whatever its names.
#[derive(Clone, Copy, Debug, PartialEq, Eq)]
pub struct Inode {
    pub device: u64,
    pub number: u64,
}

/// What is known of the file to which a name leads.
#[derive(Clone, Copy, Debug)]
pub struct Found {
    pub inode: Inode,
    /// It is a regular file.
    pub is_file: bool,
    /// The number of its names.
    pub links: u64,
    /// The number of its bytes.
    pub size: u64,
}

/// A folder, and the files in it. Nobody else changes either. A file is known by its number, its
/// inode. A name is the path of a file, and no link.
///
/// The clauses about names are those of [`crate::FolderNames`], and the clauses about bytes are
/// those of [`crate::OpenFile`]. The names and the files have one past here, so that a contract can
/// say what a crash between two calls leaves under a name.
pub trait Folder {
    /// An open file.
    type File: Drop;

    /// What a call that failed returns.
    type Error: Drop;

    /// What contracts see of the folder.
    ghost state: { Self → FolderState };

    /// What it was before each of its calls, oldest first.
    ghost past: { Self → List FolderState };

    /// The number of an open file.
    ghost number: { Self.File → ℕ };

    /// The device of all its files.
    ghost device: { ℕ };

    /// Whether it keeps the promises about its names and files, at every call.
    ghost keeps: { Self → Type 0 };

    /// Whether this call failed with this error, as the last call of the folder.
    ghost refuses: { Self → FolderCall → Self.Error → Type 0 };

    /// Returns what is known of the file to which a name leads. It fails if there is none.
    fn look_up(&mut self, name: &str) -> Result<Found, Self::Error>
        ensures kept { keeps self.old → keeps self.new }
        ensures goes_on { keeps self.old
            → PastGoesOn (state self.old) (state self.new) (past self.old) (past self.new) result }
        ensures same { keeps self.old → IsSameFolder (state self.old) (state self.new) }
        ensures found { keeps self.old → IfOk result (λ found.
            leads (state self.old).steps name.now ≡ Some found.inode.number) }
        ensures device { keeps self.old → IfOk result (λ found. found.inode.device ≡ device) }
        ensures refused { keeps self.old
            → IfErr result (refuses self.new (ToLookUp name.now)) };

    /// Returns the identity of the file to which a name leads, also if the name is a link. It fails
    /// if there is none.
    fn follow(&mut self, name: &str) -> Result<Inode, Self::Error>
        ensures kept { keeps self.old → keeps self.new }
        ensures goes_on { keeps self.old
            → PastGoesOn (state self.old) (state self.new) (past self.old) (past self.new) result }
        ensures same { keeps self.old → IsSameFolder (state self.old) (state self.new) }
        ensures found { keeps self.old → IfOk result (λ inode.
            leads (state self.old).steps name.now ≡ Some inode.number) }
        ensures device { keeps self.old → IfOk result (λ inode. inode.device ≡ device) }
        ensures refused { keeps self.old
            → IfErr result (refuses self.new (ToFollow name.now)) };

    /// Returns the identity of an open file.
    fn inode(&mut self, file: &Self::File) -> Result<Inode, Self::Error>
        ensures kept { keeps self.old → keeps self.new }
        ensures goes_on { keeps self.old
            → PastGoesOn (state self.old) (state self.new) (past self.old) (past self.new) result }
        ensures same { keeps self.old → IsSameFolder (state self.old) (state self.new) }
        ensures inode { keeps self.old → IfOk result (λ inode.
            inode.number ≡ number file.now) }
        ensures device { keeps self.old → IfOk result (λ inode. inode.device ≡ device) }
        ensures refused { keeps self.old
            → IfErr result (refuses self.new (ToIdentify (number file.now))) };

    /// Creates a file, and opens it. It fails if the name leads to a file.
    fn create_new(&mut self, name: &str) -> Result<Self::File, Self::Error>
        ensures kept { keeps self.old → keeps self.new }
        ensures goes_on { keeps self.old
            → PastGoesOn (state self.old) (state self.new) (past self.old) (past self.new) result }
        ensures creates { keeps self.old → IfOk result (λ file.
            CreatesFile name.now (number file) (state self.old) (state self.new)) }
        ensures failed { keeps self.old
            → OnErr result (IsSameFolder (state self.old) (state self.new)) }
        ensures refused { keeps self.old
            → IfErr result (refuses self.new (ToCreate name.now)) };

    /// Returns the number of bytes.
    fn size(&mut self, file: &Self::File) -> Result<u64, Self::Error>
        ensures kept { keeps self.old → keeps self.new }
        ensures goes_on { keeps self.old
            → PastGoesOn (state self.old) (state self.new) (past self.old) (past self.new) result }
        ensures same { keeps self.old → IsSameFolder (state self.old) (state self.new) }
        ensures size { keeps self.old → IfOk result (λ size.
            size ≡ length ((state self.old).file (number file.now)).now) };

    /// Fills `out` with the bytes from the place `at` on. It fails if the file ends before that.
    fn read_at(&mut self, file: &Self::File, at: u64, out: &mut [u8]) -> Result<(), Self::Error>
        ensures kept { keeps self.old → keeps self.new }
        ensures goes_on { keeps self.old
            → PastGoesOn (state self.old) (state self.new) (past self.old) (past self.new) result }
        ensures same { keeps self.old → IsSameFolder (state self.old) (state self.new) }
        ensures within { keeps self.old → OnOk result (at + length out.old
            ≤ length ((state self.old).file (number file.now)).now) }
        ensures bytes { keeps self.old → OnOk result (out.new
            ≡ slice_range ((state self.old).file (number file.now)).now at (at + length out.old)) };

    /// Writes these bytes, beginning at the place `at`. Nothing is said of a write that begins past
    /// the end.
    fn write_at(&mut self, file: &Self::File, at: u64, bytes: &[u8]) -> Result<(), Self::Error>
        ensures kept { keeps self.old → keeps self.new }
        ensures goes_on { keeps self.old
            → PastGoesOn (state self.old) (state self.new) (past self.old) (past self.new) result }
        ensures only { keeps self.old
            → IsOnly (number file.now) (state self.old) (state self.new) }
        ensures writes { keeps self.old
            → at ≤ length ((state self.old).file (number file.now)).now
            → Writes at bytes.now ((state self.old).file (number file.now))
            ((state self.new).file (number file.now)) result };

    /// Makes durable what was written to a file. If it was made and fails, that is lost.
    fn sync_file(&mut self, file: &Self::File) -> Result<(), Self::Error>
        ensures kept { keeps self.old → keeps self.new }
        ensures goes_on { keeps self.old
            → PastGoesOn (state self.old) (state self.new) (past self.old) (past self.new) result }
        ensures only { keeps self.old
            → IsOnly (number file.now) (state self.old) (state self.new) }
        ensures durable { keeps self.old
            → OnOk result (Settles Durable ((state self.old).file (number file.now))
            ((state self.new).file (number file.now))) }
        ensures lost { keeps self.old
            → OnErr result (Settles Lost ((state self.old).file (number file.now))
            ((state self.new).file (number file.now))
            ⊎ IsSame ((state self.old).file (number file.now))
            ((state self.new).file (number file.now))) };

    /// Lets the name `to` lead to the file to which `from` leads, in place of the file to which it
    /// led, if any. Nobody knows after a failure whether that was done.
    fn rename(&mut self, from: &str, to: &str) -> Result<(), Self::Error>
        ensures kept { keeps self.old → keeps self.new }
        ensures goes_on { keeps self.old
            → PastGoesOn (state self.old) (state self.new) (past self.old) (past self.new) result }
        ensures files { keeps self.old → AreSame (state self.old) (state self.new) }
        ensures renames { keeps self.old → OnOk result
            (Renames from.now to.now (state self.old).steps (state self.new).steps) }
        ensures failed { keeps self.old
            → OnErr result (((state self.new).steps ≡ (state self.old).steps)
            ⊎ Renames from.now to.now (state self.old).steps (state self.new).steps) };

    /// Lets the name lead nowhere. Nobody knows after a failure whether that was done.
    fn remove(&mut self, name: &str) -> Result<(), Self::Error>
        ensures kept { keeps self.old → keeps self.new }
        ensures goes_on { keeps self.old
            → PastGoesOn (state self.old) (state self.new) (past self.old) (past self.new) result }
        ensures files { keeps self.old → AreSame (state self.old) (state self.new) }
        ensures removes { keeps self.old → OnOk result
            ((state self.new).steps ≡ (state self.old).steps ++ new_step name.now None ∷ []) }
        ensures failed { keeps self.old
            → OnErr result (((state self.new).steps ≡ (state self.old).steps)
            ⊎ ((state self.new).steps ≡ (state self.old).steps ++ new_step name.now None ∷ [])) }
        ensures refused { keeps self.old
            → IfErr result (refuses self.new (ToRemove name.now)) };

    /// Makes durable what was done to the names in the folder of this one. If it was made and
    /// fails, that is lost.
    fn sync_names(&mut self, name: &str) -> Result<(), Self::Error>
        ensures kept { keeps self.old → keeps self.new }
        ensures goes_on { keeps self.old
            → PastGoesOn (state self.old) (state self.new) (past self.old) (past self.new) result }
        ensures files { keeps self.old → AreSame (state self.old) (state self.new) }
        ensures durable { keeps self.old → OnOk result
            ((state self.new).steps ≡ map (settled_step Durable) (state self.old).steps) }
        ensures lost { keeps self.old
            → OnErr result (((state self.new).steps
            ≡ map (settled_step Lost) (state self.old).steps)
            ⊎ ((state self.new).steps ≡ (state self.old).steps)) }
        ensures refused { keeps self.old
            → IfErr result (refuses self.new (ToSync name.now)) };
}
