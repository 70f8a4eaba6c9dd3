//! Examples of arguments that are accepted and refused, computed from the definition.
//!
//! In each of them, `name` is the program's own name, as it was started.
#![tactic(auto, unfolding(clap::proofs::OnLiterals::clap_on_literals))]

ghost use Rattle.std.specs.Prelude.{◌≡◌, ◌∷◌, ℕ, List, None, Some, [], codes, false, true};
ghost use Rattle.std.specs.Borrow.{Bor};
ghost use Rattle.clap.specs.Words.{subcommand_of};
ghost use Rattle.clap.specs.declared.error.kind.ErrorKind.TheVariants as kind;
ghost use Rattle.night_words.specs.Commands.{AsksForCrew, AsksForDemo, AsksForDrive};
ghost use Rattle.night_words.specs.Commands.{AsksForFormat, AsksForInspect, AsksForMigration};
ghost use Rattle.night_words.specs.Commands.{AsksForRenewal, AsksForRenewalInPlace};
ghost use Rattle.night_words.specs.Commands.{AsksForScript, IsCausedBy, NamesRenewal, faults_of};
ghost use Rattle.night_words.specs.Commands.{night};
ghost use Rattle.state_views.specs.declared.views.View.TheVariants.{Json, Summary, Tasks, Tree};
ghost use Rattle.state_views.specs.declared.views.View.TheVariants.{Whole};
ghost use Rattle.night_words.specs.declared.faults.WordsFault.TheVariants.{NoTree, Phase, Place};
ghost use Rattle.night_words.specs.declared.faults.WordsFault.TheVariants.{SameStores, Views};
ghost use Rattle.night_words.specs.declared.faults.WordsFault.TheVariants.{Workers};

/// `demo` is a command. The mark that ends the flags isn't one of its words.
pub fn demo_is_a_command()
    ensures alone { (name : List ℕ) → faults_of (name ∷ codes "demo" ∷ []) ≡ [] }
    ensures marked { (name : List ℕ) → faults_of (name ∷ codes "demo" ∷ codes "--" ∷ []) ≡ [] }
    ensures strict { (name : List ℕ)
        → faults_of (name ∷ codes "demo" ∷ codes "--strict" ∷ []) ≡ [] }
{}

/// `demo` is strict if the flag `--strict` comes after it.
pub fn demo_may_be_strict()
    ensures alone { (name : List ℕ) → AsksForDemo false (name ∷ codes "demo" ∷ []) }
    ensures marked { (name : List ℕ)
        → AsksForDemo false (name ∷ codes "demo" ∷ codes "--" ∷ []) }
    ensures strict { (name : List ℕ)
        → AsksForDemo true (name ∷ codes "demo" ∷ codes "--strict" ∷ []) }
    ensures both { (name : List ℕ)
        → AsksForDemo true (name ∷ codes "demo" ∷ codes "--strict" ∷ codes "--" ∷ []) }
{}

/// `format`, `script` and `inspect` are commands over a store. After the mark that ends the flags,
/// the name of the store may look like a flag.
pub fn a_store_is_named()
    ensures format { (name : List ℕ) → faults_of (name ∷ codes "format" ∷ codes "a" ∷ []) ≡ [] }
    ensures script { (name : List ℕ) → faults_of (name ∷ codes "script" ∷ codes "a" ∷ []) ≡ [] }
    ensures inspect { (name : List ℕ) → faults_of (name ∷ codes "inspect" ∷ codes "a" ∷ []) ≡ [] }
    ensures before { (name : List ℕ)
        → faults_of (name ∷ codes "format" ∷ codes "--" ∷ codes "-a" ∷ []) ≡ [] }
    ensures after { (name : List ℕ)
        → faults_of (name ∷ codes "format" ∷ codes "a" ∷ codes "--" ∷ []) ≡ [] }
{}

/// `format` makes a store of the file. With its flag, it does so only if the file is new.
pub fn a_new_store_is_named()
    ensures alone { (name : List ℕ)
        → AsksForFormat (codes "a") false (name ∷ codes "format" ∷ codes "a" ∷ []) }
    ensures before { (name : List ℕ)
        → AsksForFormat (codes "-a") false (name ∷ codes "format" ∷ codes "--" ∷ codes "-a" ∷ []) }
    ensures after { (name : List ℕ)
        → AsksForFormat (codes "a") false (name ∷ codes "format" ∷ codes "a" ∷ codes "--" ∷ []) }
    ensures new { (name : List ℕ)
        → AsksForFormat (codes "a") true (name ∷ codes "format" ∷ codes "--new" ∷ codes "a" ∷ []) }
    ensures new_after { (name : List ℕ)
        → AsksForFormat (codes "a") true (name ∷ codes "format" ∷ codes "a" ∷ codes "--new" ∷ []) }
    ensures not_new { (name : List ℕ) → AsksForFormat (codes "--new") false
        (name ∷ codes "format" ∷ codes "--" ∷ codes "--new" ∷ []) }
{}

/// `script` runs over a store. One flag makes it strict, and the other one makes it use the
/// machine's time.
pub fn a_script_may_be_strict()
    ensures alone { (name : List ℕ)
        → AsksForScript (codes "a") false false (name ∷ codes "script" ∷ codes "a" ∷ []) }
    ensures before { (name : List ℕ) → AsksForScript (codes "a") true false
        (name ∷ codes "script" ∷ codes "--strict" ∷ codes "a" ∷ []) }
    ensures after { (name : List ℕ) → AsksForScript (codes "a") true false
        (name ∷ codes "script" ∷ codes "a" ∷ codes "--strict" ∷ []) }
    ensures timed { (name : List ℕ) → AsksForScript (codes "a") false true
        (name ∷ codes "script" ∷ codes "--now" ∷ codes "a" ∷ []) }
    ensures both { (name : List ℕ) → AsksForScript (codes "a") true true
        (name ∷ codes "script" ∷ codes "--now" ∷ codes "a" ∷ codes "--strict" ∷ []) }
{}

/// `inspect` prints everything that a store holds. With its flag, it prints only the lines of its
/// tasks.
pub fn tasks_may_be_inspected()
    ensures alone { (name : List ℕ)
        → AsksForInspect (codes "a") Whole (name ∷ codes "inspect" ∷ codes "a" ∷ []) }
    ensures before { (name : List ℕ) → AsksForInspect (codes "a") (Tasks None None)
        (name ∷ codes "inspect" ∷ codes "--tasks" ∷ codes "a" ∷ []) }
    ensures after { (name : List ℕ) → AsksForInspect (codes "a") (Tasks None None)
        (name ∷ codes "inspect" ∷ codes "a" ∷ codes "--tasks" ∷ []) }
    ensures marked { (name : List ℕ) → AsksForInspect (codes "--tasks") Whole
        (name ∷ codes "inspect" ∷ codes "--" ∷ codes "--tasks" ∷ []) }
{}

/// `inspect` prints only the tasks of one phase or of one group, if a flag names it. Then `--tasks`
/// may be left out.
pub fn some_tasks_may_be_inspected()
    ensures phase { (name : List ℕ) (held : Bor (List ℕ)) → held.now ≡ codes "held"
        → AsksForInspect (codes "a") (Tasks (Some held) None)
        (name ∷ codes "inspect" ∷ codes "--tasks" ∷ codes "--phase" ∷ codes "held" ∷ codes "a"
        ∷ []) }
    ensures group { (name : List ℕ) (group : Bor (List ℕ)) → group.now ≡ codes "g"
        → AsksForInspect (codes "a") (Tasks None (Some group))
        (name ∷ codes "inspect" ∷ codes "a" ∷ codes "--group" ∷ codes "g" ∷ []) }
    ensures both { (name : List ℕ) (error group : Bor (List ℕ)) → error.now ≡ codes "error"
        → group.now ≡ codes "ready" → AsksForInspect (codes "a") (Tasks (Some error) (Some group))
        (name ∷ codes "inspect" ∷ codes "--group=ready" ∷ codes "--phase=error" ∷ codes "a"
        ∷ []) }
    ensures other { (name : List ℕ) → IsCausedBy Phase
        (name ∷ codes "inspect" ∷ codes "--phase" ∷ codes "done" ∷ codes "a" ∷ []) }
    ensures large { (name : List ℕ) → IsCausedBy Phase
        (name ∷ codes "inspect" ∷ codes "--phase=Held" ∷ codes "a" ∷ []) }
{}

/// `inspect --json` prints only the tasks of one phase or of one group in the same way.
pub fn some_tasks_may_be_printed_as_json()
    ensures phase { (name : List ℕ) (held : Bor (List ℕ)) → held.now ≡ codes "held"
        → AsksForInspect (codes "a") (Json (Some held) None)
        (name ∷ codes "inspect" ∷ codes "--phase=held" ∷ codes "--json" ∷ codes "a" ∷ []) }
    ensures group { (name : List ℕ) (group : Bor (List ℕ)) → group.now ≡ codes "g"
        → AsksForInspect (codes "a") (Json None (Some group))
        (name ∷ codes "inspect" ∷ codes "--json" ∷ codes "a" ∷ codes "--group" ∷ codes "g"
        ∷ []) }
    ensures other { (name : List ℕ) → IsCausedBy Phase
        (name ∷ codes "inspect" ∷ codes "--json" ∷ codes "--phase=done" ∷ codes "a" ∷ []) }
    ensures tasks_too { (name : List ℕ) → IsCausedBy Views
        (name ∷ codes "inspect" ∷ codes "--json" ∷ codes "--tasks" ∷ codes "--phase=held"
        ∷ codes "a" ∷ []) }
{}

/// `inspect` prints a whole store as JSON, as a tree or as a summary, each with its flag. Two of
/// these flags together are a mistake.
pub fn other_views_may_be_printed()
    ensures json { (name : List ℕ) → AsksForInspect (codes "a") (Json None None)
        (name ∷ codes "inspect" ∷ codes "--json" ∷ codes "a" ∷ []) }
    ensures json_after { (name : List ℕ) → AsksForInspect (codes "a") (Json None None)
        (name ∷ codes "inspect" ∷ codes "a" ∷ codes "--json" ∷ []) }
    ensures tree { (name : List ℕ) → AsksForInspect (codes "a") (Tree false)
        (name ∷ codes "inspect" ∷ codes "--tree" ∷ codes "a" ∷ []) }
    ensures summary { (name : List ℕ) → AsksForInspect (codes "a") Summary
        (name ∷ codes "inspect" ∷ codes "--summary" ∷ codes "a" ∷ []) }
    ensures summary_too { (name : List ℕ) → IsCausedBy Views
        (name ∷ codes "inspect" ∷ codes "--summary" ∷ codes "--tree" ∷ codes "a" ∷ []) }
    ensures tasks_too { (name : List ℕ) → IsCausedBy Views
        (name ∷ codes "inspect" ∷ codes "--json" ∷ codes "a" ∷ codes "--tasks" ∷ []) }
    ensures tree_too { (name : List ℕ) → IsCausedBy Views
        (name ∷ codes "inspect" ∷ codes "--json" ∷ codes "a" ∷ codes "--tree" ∷ []) }
    ensures group_too { (name : List ℕ) → IsCausedBy Views
        (name ∷ codes "inspect" ∷ codes "--group=g" ∷ codes "--tree" ∷ codes "a" ∷ []) }
{}

/// `--no-tasks` may only be used with `inspect --tree`.
pub fn a_tree_may_be_without_tasks()
    ensures before { (name : List ℕ) → AsksForInspect (codes "a") (Tree true)
        (name ∷ codes "inspect" ∷ codes "--no-tasks" ∷ codes "--tree" ∷ codes "a" ∷ []) }
    ensures after { (name : List ℕ) → AsksForInspect (codes "a") (Tree true)
        (name ∷ codes "inspect" ∷ codes "--tree" ∷ codes "a" ∷ codes "--no-tasks" ∷ []) }
    ensures alone { (name : List ℕ) → IsCausedBy NoTree
        (name ∷ codes "inspect" ∷ codes "--no-tasks" ∷ codes "a" ∷ []) }
    ensures json { (name : List ℕ) → IsCausedBy NoTree
        (name ∷ codes "inspect" ∷ codes "--json" ∷ codes "--no-tasks" ∷ codes "a" ∷ []) }
    ensures json_too { (name : List ℕ) → IsCausedBy Views
        (name ∷ codes "inspect" ∷ codes "--json" ∷ codes "--tree" ∷ codes "--no-tasks"
        ∷ codes "a" ∷ []) }
    ensures taken { (name : List ℕ) → faults_of
        (name ∷ codes "inspect" ∷ codes "--tree" ∷ codes "--no-tasks" ∷ codes "a" ∷ []) ≡ [] }
{}

/// The arguments of all subcommands are accepted together with their flags.
pub fn flags_are_taken()
    ensures new { (name : List ℕ)
        → faults_of (name ∷ codes "format" ∷ codes "--new" ∷ codes "a" ∷ []) ≡ [] }
    ensures new_after { (name : List ℕ)
        → faults_of (name ∷ codes "format" ∷ codes "a" ∷ codes "--new" ∷ []) ≡ [] }
    ensures strict { (name : List ℕ)
        → faults_of (name ∷ codes "script" ∷ codes "--strict" ∷ codes "a" ∷ []) ≡ [] }
    ensures strict_after { (name : List ℕ)
        → faults_of (name ∷ codes "script" ∷ codes "a" ∷ codes "--strict" ∷ []) ≡ [] }
    ensures tasks { (name : List ℕ)
        → faults_of (name ∷ codes "inspect" ∷ codes "--tasks" ∷ codes "a" ∷ []) ≡ [] }
    ensures timed { (name : List ℕ)
        → faults_of (name ∷ codes "script" ∷ codes "--now" ∷ codes "a" ∷ []) ≡ [] }
    ensures json { (name : List ℕ)
        → faults_of (name ∷ codes "inspect" ∷ codes "a" ∷ codes "--json" ∷ []) ≡ [] }
    ensures tree { (name : List ℕ)
        → faults_of (name ∷ codes "inspect" ∷ codes "--tree" ∷ codes "a" ∷ []) ≡ [] }
    ensures summary { (name : List ℕ)
        → faults_of (name ∷ codes "inspect" ∷ codes "--summary" ∷ codes "a" ∷ []) ≡ [] }
    ensures phase { (name : List ℕ) → faults_of
        (name ∷ codes "inspect" ∷ codes "--phase" ∷ codes "held" ∷ codes "a" ∷ []) ≡ [] }
    ensures group { (name : List ℕ)
        → faults_of (name ∷ codes "inspect" ∷ codes "a" ∷ codes "--group=g" ∷ []) ≡ [] }
    ensures in_place { (name : List ℕ)
        → faults_of (name ∷ codes "renew" ∷ codes "--in-place" ∷ codes "a" ∷ []) ≡ [] }
    ensures migrate_new { (name : List ℕ) → faults_of
        (name ∷ codes "migrate" ∷ codes "--new" ∷ codes "a" ∷ codes "b" ∷ []) ≡ [] }
    ensures renew_new { (name : List ℕ) → faults_of
        (name ∷ codes "renew" ∷ codes "a" ∷ codes "b" ∷ codes "--new" ∷ []) ≡ [] }
    ensures known { (name : List ℕ)
        → faults_of (name ∷ codes "crew" ∷ codes "--known" ∷ codes "a" ∷ []) ≡ [] }
{}

/// A flag may be given once, and only after its own command.
pub fn other_flags_are_mistakes()
    ensures inspect { (name : List ℕ)
        → faults_of (name ∷ codes "inspect" ∷ codes "--new" ∷ codes "a" ∷ [])
        ≡ kind.UnknownArgument ∷ [] }
    ensures format { (name : List ℕ)
        → faults_of (name ∷ codes "format" ∷ codes "--strict" ∷ codes "a" ∷ [])
        ≡ kind.UnknownArgument ∷ [] }
    ensures migrate { (name : List ℕ)
        → faults_of (name ∷ codes "migrate" ∷ codes "--in-place" ∷ codes "a" ∷ codes "b" ∷ [])
        ≡ kind.UnknownArgument ∷ [] }
    ensures twice_new { (name : List ℕ) → faults_of
        (name ∷ codes "format" ∷ codes "--new" ∷ codes "a" ∷ codes "--new" ∷ [])
        ≡ kind.ArgumentConflict ∷ [] }
    ensures twice_group { (name : List ℕ) → faults_of
        (name ∷ codes "inspect" ∷ codes "--group=g" ∷ codes "--group=h" ∷ codes "a" ∷ [])
        ≡ kind.ArgumentConflict ∷ [] }
    ensures twice { (name : List ℕ)
        → faults_of (name ∷ codes "demo" ∷ codes "--strict" ∷ codes "--strict" ∷ [])
        ≡ kind.ArgumentConflict ∷ [] }
    ensures wanting { (name : List ℕ)
        → faults_of (name ∷ codes "inspect" ∷ codes "a" ∷ codes "--phase" ∷ [])
        ≡ kind.InvalidValue ∷ [] }
    ensures attached { (name : List ℕ)
        → faults_of (name ∷ codes "demo" ∷ codes "--strict=true" ∷ [])
        ≡ kind.TooManyValues ∷ [] }
    ensures timed { (name : List ℕ) → faults_of (name ∷ codes "demo" ∷ codes "--now" ∷ [])
        ≡ kind.UnknownArgument ∷ [] }
{}

/// These commands need exactly one store.
pub fn a_store_is_wanted()
    ensures none { (name : List ℕ) → faults_of (name ∷ codes "script" ∷ [])
        ≡ kind.MissingRequiredArgument ∷ [] }
    ensures mark { (name : List ℕ) → faults_of (name ∷ codes "script" ∷ codes "--" ∷ [])
        ≡ kind.MissingRequiredArgument ∷ [] }
    ensures two { (name : List ℕ)
        → faults_of (name ∷ codes "script" ∷ codes "a" ∷ codes "b" ∷ [])
        ≡ kind.UnknownArgument ∷ [] }
    ensures flag { (name : List ℕ) → faults_of (name ∷ codes "script" ∷ codes "-a" ∷ [])
        ≡ kind.UnknownArgument ∷ [] }
{}

/// `migrate` is a command with two stores, such as `migrate OLD NEW`. After `--`, which ends the
/// options, the names of the stores may look like options.
pub fn two_stores_are_named()
    ensures alone { (name : List ℕ)
        → faults_of (name ∷ codes "migrate" ∷ codes "a" ∷ codes "b" ∷ []) ≡ [] }
    ensures before { (name : List ℕ)
        → faults_of (name ∷ codes "migrate" ∷ codes "--" ∷ codes "-a" ∷ codes "-b" ∷ []) ≡ [] }
    ensures between { (name : List ℕ)
        → faults_of (name ∷ codes "migrate" ∷ codes "a" ∷ codes "--" ∷ codes "-b" ∷ []) ≡ [] }
    ensures after { (name : List ℕ)
        → faults_of (name ∷ codes "migrate" ∷ codes "a" ∷ codes "b" ∷ codes "--" ∷ []) ≡ [] }
{}

/// `renew` is a command with two stores, such as `renew OLD NEW`. After `--`, which ends the
/// options, the names of the stores may look like options.
pub fn two_stores_may_be_renewed()
    ensures alone { (name : List ℕ)
        → faults_of (name ∷ codes "renew" ∷ codes "a" ∷ codes "b" ∷ []) ≡ [] }
    ensures between { (name : List ℕ)
        → faults_of (name ∷ codes "renew" ∷ codes "a" ∷ codes "--" ∷ codes "-b" ∷ []) ≡ [] }
    ensures same { (name : List ℕ)
        → IsCausedBy SameStores (name ∷ codes "renew" ∷ codes "a" ∷ codes "a" ∷ []) }
    ensures none { (name : List ℕ) → faults_of (name ∷ codes "renew" ∷ [])
        ≡ kind.MissingRequiredArgument ∷ [] }
{}

/// `renew --in-place` is a command over one store. `renew` with one store and without this flag is
/// a mistake, and so is the flag with two stores.
pub fn a_store_may_be_renewed_in_place()
    ensures before { (name : List ℕ) → AsksForRenewalInPlace (codes "a")
        (name ∷ codes "renew" ∷ codes "--in-place" ∷ codes "a" ∷ []) }
    ensures after { (name : List ℕ) → AsksForRenewalInPlace (codes "a")
        (name ∷ codes "renew" ∷ codes "a" ∷ codes "--in-place" ∷ []) }
    ensures neither { (name : List ℕ)
        → IsCausedBy Place (name ∷ codes "renew" ∷ codes "a" ∷ []) }
    ensures both { (name : List ℕ) → IsCausedBy Place
        (name ∷ codes "renew" ∷ codes "--in-place" ∷ codes "a" ∷ codes "b" ∷ []) }
    ensures new { (name : List ℕ) → IsCausedBy Place
        (name ∷ codes "renew" ∷ codes "--in-place" ∷ codes "--new" ∷ codes "a" ∷ []) }
    ensures two { (name : List ℕ) → NamesRenewal (codes "a") (Some (codes "b")) false false
        (subcommand_of night (name ∷ codes "renew" ∷ codes "a" ∷ codes "b" ∷ [])) }
{}

/// With `--new`, a migration or a renewal makes the file of the new store, which mustn't exist.
pub fn a_new_file_may_be_wanted()
    ensures migrate { (name : List ℕ) → AsksForMigration (codes "a") (codes "b") true
        (name ∷ codes "migrate" ∷ codes "--new" ∷ codes "a" ∷ codes "b" ∷ []) }
    ensures migrate_between { (name : List ℕ) → AsksForMigration (codes "a") (codes "b") true
        (name ∷ codes "migrate" ∷ codes "a" ∷ codes "--new" ∷ codes "b" ∷ []) }
    ensures renew { (name : List ℕ) → AsksForRenewal (codes "a") (codes "b") true
        (name ∷ codes "renew" ∷ codes "--new" ∷ codes "a" ∷ codes "b" ∷ []) }
    ensures renew_after { (name : List ℕ) → AsksForRenewal (codes "a") (codes "b") true
        (name ∷ codes "renew" ∷ codes "a" ∷ codes "b" ∷ codes "--new" ∷ []) }
    ensures not_new { (name : List ℕ) → AsksForRenewal (codes "--new") (codes "b") false
        (name ∷ codes "renew" ∷ codes "--" ∷ codes "--new" ∷ codes "b" ∷ []) }
    ensures same { (name : List ℕ) → IsCausedBy SameStores
        (name ∷ codes "migrate" ∷ codes "--new" ∷ codes "a" ∷ codes "a" ∷ []) }
{}

/// These commands need exactly two stores.
pub fn two_stores_are_wanted()
    ensures one { (name : List ℕ) → faults_of (name ∷ codes "migrate" ∷ codes "a" ∷ [])
        ≡ kind.MissingRequiredArgument ∷ [] }
    ensures three { (name : List ℕ)
        → faults_of (name ∷ codes "migrate" ∷ codes "a" ∷ codes "b" ∷ codes "c" ∷ [])
        ≡ kind.UnknownArgument ∷ [] }
{}

/// `crew` is a command over a store. It has 4 workers if no other number is given.
pub fn a_crew_is_named()
    ensures alone { (name : List ℕ)
        → AsksForCrew (codes "a") 4 false (name ∷ codes "crew" ∷ codes "a" ∷ []) }
    ensures before { (name : List ℕ) → AsksForCrew (codes "a") 1 false
        (name ∷ codes "crew" ∷ codes "--workers" ∷ codes "1" ∷ codes "a" ∷ []) }
    ensures after { (name : List ℕ) → AsksForCrew (codes "a") 8 false
        (name ∷ codes "crew" ∷ codes "a" ∷ codes "--workers=8" ∷ []) }
    ensures taken { (name : List ℕ)
        → faults_of (name ∷ codes "crew" ∷ codes "a" ∷ codes "--workers" ∷ codes "1" ∷ []) ≡ [] }
    ensures known { (name : List ℕ)
        → AsksForCrew (codes "a") 4 true (name ∷ codes "crew" ∷ codes "--known" ∷ codes "a" ∷ []) }
    ensures known_after { (name : List ℕ) → AsksForCrew (codes "a") 2 true
        (name ∷ codes "crew" ∷ codes "a" ∷ codes "--known" ∷ codes "--workers" ∷ codes "2" ∷ []) }
{}

/// A crew has 1 to 8 workers, whose number is given once, and a store.
pub fn other_crews_are_mistakes()
    ensures none { (name : List ℕ) → IsCausedBy Workers
        (name ∷ codes "crew" ∷ codes "a" ∷ codes "--workers=0" ∷ []) }
    ensures nine { (name : List ℕ) → IsCausedBy Workers
        (name ∷ codes "crew" ∷ codes "a" ∷ codes "--workers" ∷ codes "9" ∷ []) }
    ensures zeros { (name : List ℕ) → IsCausedBy Workers
        (name ∷ codes "crew" ∷ codes "a" ∷ codes "--workers=04" ∷ []) }
    ensures store { (name : List ℕ)
        → faults_of (name ∷ codes "crew" ∷ codes "--workers" ∷ codes "4" ∷ [])
        ≡ kind.MissingRequiredArgument ∷ [] }
    ensures twice { (name : List ℕ) → faults_of
        (name ∷ codes "crew" ∷ codes "a" ∷ codes "--workers=1" ∷ codes "--workers=2" ∷ [])
        ≡ kind.ArgumentConflict ∷ [] }
{}

/// `drive` is a command over a store. After the mark that ends the flags, the name of the store may
/// look like a flag.
pub fn a_drive_is_named()
    ensures alone { (name : List ℕ)
        → AsksForDrive (codes "a") (name ∷ codes "drive" ∷ codes "a" ∷ []) }
    ensures taken { (name : List ℕ) → faults_of (name ∷ codes "drive" ∷ codes "a" ∷ []) ≡ [] }
    ensures before { (name : List ℕ)
        → AsksForDrive (codes "-a") (name ∷ codes "drive" ∷ codes "--" ∷ codes "-a" ∷ []) }
    ensures after { (name : List ℕ)
        → AsksForDrive (codes "a") (name ∷ codes "drive" ∷ codes "a" ∷ codes "--" ∷ []) }
{}

/// A drive has one store and no flag.
pub fn other_drives_are_mistakes()
    ensures none { (name : List ℕ) → faults_of (name ∷ codes "drive" ∷ [])
        ≡ kind.MissingRequiredArgument ∷ [] }
    ensures two { (name : List ℕ)
        → faults_of (name ∷ codes "drive" ∷ codes "a" ∷ codes "b" ∷ [])
        ≡ kind.UnknownArgument ∷ [] }
    ensures timed { (name : List ℕ)
        → faults_of (name ∷ codes "drive" ∷ codes "--now" ∷ codes "a" ∷ [])
        ≡ kind.UnknownArgument ∷ [] }
{}

/// Without arguments, nothing is asked for.
pub fn no_words_are_a_mistake()
    ensures name { (name : List ℕ) → faults_of (name ∷ [])
        ≡ kind.DisplayHelpOnMissingArgumentOrSubcommand ∷ [] }
    ensures none { faults_of [] ≡ kind.DisplayHelpOnMissingArgumentOrSubcommand ∷ [] }
{}

/// An argument that names no command is a mistake, and so is one that is left over.
pub fn other_words_are_mistakes()
    ensures unknown { (name : List ℕ) → faults_of (name ∷ codes "work" ∷ [])
        ≡ kind.UnknownArgument ∷ kind.InvalidSubcommand ∷ [] }
    ensures begun { (name : List ℕ) → faults_of (name ∷ codes "dem" ∷ [])
        ≡ kind.UnknownArgument ∷ kind.InvalidSubcommand ∷ [] }
    ensures empty { (name : List ℕ) → faults_of (name ∷ [] ∷ [])
        ≡ kind.UnknownArgument ∷ kind.InvalidSubcommand ∷ [] }
    ensures left_over { (name : List ℕ) → faults_of (name ∷ codes "demo" ∷ codes "x" ∷ [])
        ≡ kind.UnknownArgument ∷ [] }
    ensures twice { (name : List ℕ) → faults_of (name ∷ codes "demo" ∷ codes "demo" ∷ [])
        ≡ kind.UnknownArgument ∷ [] }
    ensures flag { (name : List ℕ) → faults_of (name ∷ codes "--demo" ∷ [])
        ≡ kind.UnknownArgument ∷ [] }
{}

/// A flag, in its long or its short form, asks for help, and another one for the version.
pub fn help_and_the_version_are_shown()
    ensures long { (name : List ℕ) → faults_of (name ∷ codes "--help" ∷ [])
        ≡ kind.DisplayHelp ∷ [] }
    ensures short { (name : List ℕ) → faults_of (name ∷ codes "-h" ∷ []) ≡ kind.DisplayHelp ∷ [] }
    ensures of_demo { (name : List ℕ) → faults_of (name ∷ codes "demo" ∷ codes "--help" ∷ [])
        ≡ kind.DisplayHelp ∷ [] }
    ensures of_format { (name : List ℕ) → faults_of (name ∷ codes "format" ∷ codes "--help" ∷ [])
        ≡ kind.DisplayHelp ∷ [] }
    ensures of_drive { (name : List ℕ) → faults_of (name ∷ codes "drive" ∷ codes "--help" ∷ [])
        ≡ kind.DisplayHelp ∷ [] }
    ensures version { (name : List ℕ) → faults_of (name ∷ codes "--version" ∷ [])
        ≡ kind.DisplayVersion ∷ [] }
    ensures short_version { (name : List ℕ) → faults_of (name ∷ codes "-V" ∷ [])
        ≡ kind.DisplayVersion ∷ [] }
{}
