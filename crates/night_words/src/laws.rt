//! Laws of subcommands without flags: the words are then only the name of the subcommand and, if it
//! takes one, the name of a store, and this is how the parser reads them.

ghost use Rattle.std.specs.Prelude.{◌≡◌, ℕ, List, [], codes, false};
ghost use Rattle.night_words.specs.Commands.{AsksAlone, AsksForDemo, AsksForDrive, AsksForFormat};
ghost use Rattle.night_words.specs.Commands.{AsksForInspect, AsksForScript, AsksOver, faults_of};
ghost use Rattle.state_views.specs.declared.views.View.TheVariants.{Whole};

/// If `demo` isn't strict, it has no flag.
pub fn demo_stands_alone()
    ensures { (words : List (List ℕ)) → faults_of words ≡ [] → AsksForDemo false words
        → AsksAlone (codes "demo") words }
{}

/// If `format` doesn't ask for a new file, the store stands alone, without a flag. The same is true
/// of a `script` that is neither strict nor uses the machine's time, and of an `inspect` that
/// prints everything. A `drive` has no flag at all.
pub fn a_store_stands_alone()
    ensures format { (store : List ℕ) (words : List (List ℕ)) → faults_of words ≡ []
        → AsksForFormat store false words → AsksOver (codes "format") store words }
    ensures script { (store : List ℕ) (words : List (List ℕ)) → faults_of words ≡ []
        → AsksForScript store false false words → AsksOver (codes "script") store words }
    ensures inspect { (store : List ℕ) (words : List (List ℕ)) → faults_of words ≡ []
        → AsksForInspect store Whole words → AsksOver (codes "inspect") store words }
    ensures drive { (store : List ℕ) (words : List (List ℕ)) → faults_of words ≡ []
        → AsksForDrive store words → AsksOver (codes "drive") store words }
{}

/// Conversely, if a store stands alone, `format` doesn't ask for a new file, `script` is neither
/// strict nor uses the machine's time, `inspect` prints everything, and `drive` asks for a drive.
pub fn a_store_alone_has_no_flag()
    ensures format { (store : List ℕ) (words : List (List ℕ)) → faults_of words ≡ []
        → AsksOver (codes "format") store words → AsksForFormat store false words }
    ensures script { (store : List ℕ) (words : List (List ℕ)) → faults_of words ≡ []
        → AsksOver (codes "script") store words → AsksForScript store false false words }
    ensures inspect { (store : List ℕ) (words : List (List ℕ)) → faults_of words ≡ []
        → AsksOver (codes "inspect") store words → AsksForInspect store Whole words }
    ensures drive { (store : List ℕ) (words : List (List ℕ)) → faults_of words ≡ []
        → AsksOver (codes "drive") store words → AsksForDrive store words }
{}
