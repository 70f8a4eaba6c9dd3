//! Worked examples: the names of a night, and the steps that open it, computed from the definitions
//! only, without any of the code.
//!
//! Each function has an empty body, and its clauses are the example.

#![tactic(auto, unfolding(crate::proofs::OnLiterals::names_on_literals))]

ghost use Rattle.std.specs.Prelude.{◌≡◌, [], ◌∷◌, codes, false, map, None, Some, true};
ghost use Rattle.run_model.specs.declared.commands.Wish.TheVariants as wish;
ghost use Rattle.night_drive.specs.Examples.{two_nights};
ghost use Rattle.drive_nights.specs.declared.names.Role.TheVariants as role;
ghost use Rattle.drive_nights.specs.Deadlines.{IsNextMoment};
ghost use Rattle.drive_nights.specs.Effects.{IsOpening, is_kept};
ghost use Rattle.drive_nights.specs.Endings.{endings_of};
ghost use Rattle.drive_nights.specs.Examples.{dated, end_of_both, end_of_dated, end_of_first};
ghost use Rattle.drive_nights.specs.Examples.{first_night, going_on, later_disks, nested};
ghost use Rattle.drive_nights.specs.Examples.{new_store, none_of_two, third_night, timed, timed_at};
ghost use Rattle.drive_nights.specs.Examples.{two_groups, until_of};
ghost use Rattle.drive_nights.specs.Marks.{mark_of};
ghost use Rattle.drive_nights.specs.Names.{free_name, is_free, is_short, role_name, round_name};
ghost use Rattle.drive_nights.specs.Nights.{base_of, is_ended, last_night, night_of_store};
ghost use Rattle.drive_nights.specs.Nights.{number_in};
ghost use Rattle.drive_nights.specs.Openings.{growth_of, opening_of};
ghost use Rattle.drive_nights.specs.Rooms.{derive, is_changed};

/// The number of a night stands in the names of its scopes, except in the first one.
pub fn a_name_has_the_number_of_its_night()
    ensures first { round_name (codes "disks") 1 1 ≡ codes "disks" }
    ensures second { round_name (codes "disks") 2 1 ≡ codes "disks--2" }
    ensures third { round_name (codes "disks") 2 3 ≡ codes "disks--2-3" }
    ensures again { round_name (codes "disks") 1 2 ≡ codes "disks--1-2" }
{}

/// A role stands after a name, or only its first letter if the whole name had more than 32 bytes.
pub fn a_role_may_be_one_letter()
    ensures whole { role_name (codes "disks--2") role.Until ≡ codes "disks--2--until" }
    ensures most { role_name (codes "abcdefghijklmnopqrstuvwxy") role.Until
        ≡ codes "abcdefghijklmnopqrstuvwxy--until" }
    ensures letter { role_name (codes "abcdefghijklmnopqrstuvwxyz") role.Until
        ≡ codes "abcdefghijklmnopqrstuvwxyz--u" }
    ensures short { is_short (codes "abcdefghijklmnopqrst") 9999 ≡ true }
    ensures long { is_short (codes "abcdefghijklmnopqrst") 10000 ≡ false }
{}

/// In the second night of the store the name `disks--2` is taken by a scope, and `disks--2-2` by a
/// group. A scope with a role takes a name, too.
pub fn the_first_free_name_is_taken()
    ensures disks { free_name two_nights (codes "disks") 2 ≡ codes "disks--2-3" }
    ensures tapes { free_name two_nights (codes "tapes") 2 ≡ codes "tapes--2-2" }
    ensures other { free_name two_nights (codes "disks") 3 ≡ codes "disks--3" }
    ensures role { is_free two_nights (codes "night--2") ≡ false }
{}

/// The second night of the store is the last one, and it goes on. If another one is wanted, the
/// third one begins.
pub fn the_last_night_goes_on()
    ensures last { last_night two_nights ≡ 2 }
    ensures open { is_ended two_nights 2 ≡ false }
    ensures going { night_of_store two_nights false ≡ 2 }
    ensures next { night_of_store two_nights true ≡ 3 }
    ensures numbers { map number_in (codes "12" ∷ codes "0" ∷ codes "two" ∷ codes "1234567890" ∷ [])
        ≡ 12 ∷ 1 ∷ 1 ∷ 1 ∷ [] }
{}

/// The base of the first night is its top, and that of the second one the scope with its number.
pub fn a_night_has_a_base()
    ensures first { base_of two_nights 1 ≡ Some 1 }
    ensures second { base_of two_nights 2 ≡ Some 4 }
    ensures third { base_of two_nights 3 ≡ None }
    ensures mark { mark_of two_nights 2 ≡ Some (derive (codes "night--2--ended") (codes "night--2")
        (wish.Value (codes "ended") (codes "2000"))) }
{}

/// When the second night is opened again, a task is withdrawn, and nothing is made.
pub fn a_night_is_opened_again()
    ensures { opening_of two_nights 2 two_groups none_of_two None ≡ going_on }
{}

/// With another deadline the disks get a new scope. The tapes were canceled, so they get none, even
/// though their deadline is another one, too.
pub fn a_canceled_group_is_not_opened_again()
    ensures changed { is_changed two_nights 7 (until_of 9500 (codes "within 4h")) ≡ true }
    ensures kept { is_kept two_nights 2 None (codes "tapes") (until_of 9500 (codes "within 4h"))
        ≡ true }
    ensures steps { opening_of two_nights 2 two_groups (until_of 9500 (codes "within 4h")
        ∷ until_of 9500 (codes "within 4h") ∷ []) None ≡ later_disks }
{}

/// The third night has scopes and groups of its own.
pub fn another_night_begins()
    ensures { opening_of two_nights 3 two_groups none_of_two None ≡ third_night }
{}

/// In the second night, what is left of the first one is ended: its group is waited for, and its
/// top is canceled. In a third night the same is done with the second one. A deadline of all groups
/// together is canceled, too. A new store has nothing to end.
pub fn older_nights_are_ended()
    ensures second { endings_of two_nights 2 ≡ end_of_first }
    ensures third { endings_of two_nights 3 ≡ end_of_both }
    ensures dated { endings_of dated 2 ≡ end_of_dated }
    ensures new { endings_of new_store.state 1 ≡ [] }
{}

/// If somebody has put a night below the top of another one, that top isn't canceled as long as the
/// night is the last one.
pub fn the_last_night_is_left_alone()
    ensures { endings_of nested 2 ≡ [] }
{}

/// In a new store the first night is opened, and no step is refused. The names of its scopes have
/// no number.
pub fn a_first_night_is_opened()
    ensures steps { opening_of new_store.state 1 two_groups none_of_two
        (until_of 600 (codes "06:00")) ≡ first_night }
    ensures opens { IsOpening new_store 1 two_groups none_of_two (until_of 600 (codes "06:00")) }
{}

/// The disks end at 400, and all groups together at 600. What comes first is the next moment: a
/// retry, or the deadline of the disks. Once the clock shows 400, that deadline has come, and the
/// one of all groups is next. Without any of them there is no next moment.
pub fn the_next_moment_is_the_least_one()
    ensures retry { IsNextMoment timed 1 two_groups (Some 300) (Some 300) }
    ensures disks { IsNextMoment timed 1 two_groups (Some 500) (Some 400) }
    ensures all { IsNextMoment (timed_at 400) 1 two_groups None (Some 600) }
    ensures none { IsNextMoment (timed_at 600) 1 two_groups None None }
    ensures tapes { IsNextMoment timed 1 (codes "tapes" ∷ []) None (Some 600) }
{}
