//! Examples of a session that has as many scopes, groups or tasks as fit into a store.

ghost use Rattle.std.specs.Prelude.{◌≡◌};
ghost use Rattle.run_model.specs.declared.commands.Wish.TheVariants.{Cause};
ghost use Rattle.run_model.specs.declared.layouts.Layout.TheVariants.{Small, Large};
ghost use Rattle.run_model.specs.declared.refusals.Refusal.TheVariants as refusal;
ghost use Rattle.run_model.specs.declared.tasks.Phase.TheVariants as phase;
ghost use Rattle.run_model.specs.Session.{reply_of_step};
ghost use Rattle.book_model.specs.Examples.Calls.{advance, bare, derive, go, group, set_limit};
ghost use Rattle.book_model.specs.Examples.Calls.{start, try_go, wait, bare_made, group_made};
ghost use Rattle.book_model.specs.Examples.Calls.{refused, scope_made, submitted};
ghost use Rattle.book_model.specs.Examples.Fulls.{past_moments, session_in};

/// The last scope, group and task that fit into a small store are accepted.
pub fn the_last_ones_of_a_small_store_are_accepted()
    ensures scope { reply_of_step (session_in Small 1023 3 0) (derive "a" "root" Cause)
        ≡ scope_made 1023 }
    ensures group { reply_of_step (session_in Small 1023 127 0) (group "g" "root")
        ≡ group_made 127 1023 }
    ensures bare { reply_of_step (session_in Small 1024 127 0) (bare "g" "root") ≡ bare_made 127 }
    ensures ready { reply_of_step (session_in Small 1 3 2047) (go "open" "copy" "a")
        ≡ submitted 2047 phase.Ready }
    ensures held { reply_of_step (session_in Small 1 3 2047) (go "limited" "copy" "a")
        ≡ submitted 2047 phase.Held }
    ensures tried { reply_of_step (session_in Small 1 3 2047) (try_go "open" "copy" "a")
        ≡ submitted 2047 phase.Ready }
{}

/// One more scope, group or task doesn't fit into a small store. For a new group, a lack of scopes
/// is reported before a lack of groups. For a new task, a group that was waited for is reported
/// before a full store, and a full store before the limit.
pub fn one_more_in_a_small_store_is_refused()
    ensures scope { reply_of_step (session_in Small 1024 3 0) (derive "a" "root" Cause)
        ≡ refused refusal.TooManyScopes }
    ensures group_scope { reply_of_step (session_in Small 1024 3 0) (group "g" "root")
        ≡ refused refusal.TooManyScopes }
    ensures group_both { reply_of_step (session_in Small 1024 128 0) (group "g" "root")
        ≡ refused refusal.TooManyScopes }
    ensures group { reply_of_step (session_in Small 1023 128 0) (group "g" "root")
        ≡ refused refusal.TooManyGroups }
    ensures bare { reply_of_step (session_in Small 1024 128 0) (bare "g" "root")
        ≡ refused refusal.TooManyGroups }
    ensures waited { reply_of_step (session_in Small 1 3 2048) (go "waited" "copy" "a")
        ≡ refused refusal.Waited }
    ensures task { reply_of_step (session_in Small 1 3 2048) (go "open" "copy" "a")
        ≡ refused refusal.TooManyTasks }
    ensures try_waited { reply_of_step (session_in Small 1 3 2048) (try_go "waited" "copy" "a")
        ≡ refused refusal.Waited }
    ensures tried { reply_of_step (session_in Small 1 3 2048) (try_go "limited" "copy" "a")
        ≡ refused refusal.TooManyTasks }
    ensures at_limit { reply_of_step (session_in Small 1 3 2047) (try_go "limited" "copy" "a")
        ≡ refused refusal.AtLimit }
{}

/// Whether a name exists or is taken is checked before whether the new row fits. Whether a scope
/// fits is checked before the moment of a timeout.
pub fn names_are_asked_before_room()
    ensures group { reply_of_step (session_in Small 1024 128 0) (group "g" "nobody")
        ≡ refused refusal.NoSuchScope }
    ensures group_scope { reply_of_step (session_in Small 1024 128 0) (group "s" "root")
        ≡ refused refusal.NameTaken }
    ensures group_group { reply_of_step (session_in Small 1024 128 0) (group "open" "root")
        ≡ refused refusal.NameTaken }
    ensures bare { reply_of_step (session_in Small 1 128 0) (bare "open" "nobody")
        ≡ refused refusal.NoSuchScope }
    ensures bare_group { reply_of_step (session_in Small 1 128 0) (bare "open" "root")
        ≡ refused refusal.NameTaken }
    ensures derive { reply_of_step (session_in Small 1024 3 0) (derive "s" "nobody" past_moments)
        ≡ refused refusal.NoSuchScope }
    ensures derive_name { reply_of_step (session_in Small 1024 3 0) (derive "s" "root" past_moments)
        ≡ refused refusal.NameTaken }
    ensures derive_room { reply_of_step (session_in Small 1024 3 0) (derive "a" "root" past_moments)
        ≡ refused refusal.TooManyScopes }
    ensures derive_moment { reply_of_step (session_in Small 1023 3 0)
        (derive "a" "root" past_moments) ≡ refused refusal.MomentOutOfRange }
    ensures go { reply_of_step (session_in Small 1 3 2048) (go "x" "copy" "a")
        ≡ refused refusal.NoSuchGroup }
    ensures tried { reply_of_step (session_in Small 1 3 2048) (try_go "x" "copy" "a")
        ≡ refused refusal.NoSuchGroup }
{}

/// Whether the log is full is checked last.
pub fn a_full_log_is_asked_last()
    ensures start { reply_of_step (record (session_in Small 1 3 0) { log = 1048576 }) start
        ≡ refused refusal.NothingReady }
    ensures advance { reply_of_step (record (session_in Small 1 3 0) { log = 1048576 }) (advance 0)
        ≡ refused refusal.ClockNotForward }
    ensures wait { reply_of_step (record (session_in Small 1 3 2) { log = 1048576 })
        (wait "limited") ≡ refused (refusal.Unfinished 2) }
    ensures limit { reply_of_step (record (session_in Small 1 3 2) { log = 1048576 })
        (set_limit "limited" 2) ≡ refused refusal.LimitWhileActive }
    ensures go { reply_of_step (record (session_in Small 1 3 0) { log = 1048576 })
        (go "open" "copy" "a") ≡ refused refusal.SessionFull }
{}

/// A large store holds 4,096 scopes, including root, 8,192 tasks, and as many groups as a small
/// one.
pub fn a_large_store_has_room_for_more()
    ensures last_scope { reply_of_step (session_in Large 4095 3 0) (derive "a" "root" Cause)
        ≡ scope_made 4095 }
    ensures scope { reply_of_step (session_in Large 4096 3 0) (derive "a" "root" Cause)
        ≡ refused refusal.TooManyScopes }
    ensures last_group { reply_of_step (session_in Large 1 127 0) (bare "g" "root")
        ≡ bare_made 127 }
    ensures group { reply_of_step (session_in Large 1 128 0) (bare "g" "root")
        ≡ refused refusal.TooManyGroups }
    ensures last_task { reply_of_step (session_in Large 1 3 8191) (go "open" "copy" "a")
        ≡ submitted 8191 phase.Ready }
    ensures task { reply_of_step (session_in Large 1 3 8192) (go "open" "copy" "a")
        ≡ refused refusal.TooManyTasks }
{}
