//! Worked examples: what some lines come to, computed from the definitions only, without any of the
//! code.
//!
//! Each function has an empty body, and its clauses are the example. `planned` has the lines of the
//! plan on the page about driven nights, and `failed`, `canceled` and `gone` those of its rounds.

ghost use Rattle.std.specs.Prelude.{◌≡◌, [], ◌∷◌, codes, false, true, None, Some};
ghost use Rattle.std.specs.List.{filter_map, list_any};
ghost use Rattle.run_model.specs.declared.tasks.Outcome.TheVariants as outcome;
ghost use Rattle.drive_lines.specs.Examples.{asked, canceled, failed, gone, grown, planned};
ghost use Rattle.drive_parts.specs.Additions.{commands_in, first_of, group_of, groups_in};
ghost use Rattle.drive_parts.specs.Additions.{is_open, key_of, name_of, pool_of, untils_in};
ghost use Rattle.drive_parts.specs.Examples.{busy, dated, files, growing, once, orders, stopping};
ghost use Rattle.drive_parts.specs.Examples.{users, whole_pool};
ghost use Rattle.drive_parts.specs.Heard.{ask_of, cancel_of, done_of, end_of, gone_of};
ghost use Rattle.drive_parts.specs.Heard.{group_ask_of, is_hurry, is_over, is_question, last_of};
ghost use Rattle.drive_parts.specs.Heard.{size_of, time_of};
ghost use Rattle.drive_parts.specs.Plans.{all_of, is_next};

/// The plan of the session has a pool, and a group with two commands.
pub fn a_plan_has_a_group_and_two_commands()
    ensures pools { filter_map pool_of planned ≡ 1 ∷ [] }
    ensures groups { filter_map group_of planned ≡ stopping ∷ [] }
    ensures names { filter_map name_of planned ≡ codes "dumps" ∷ [] }
    ensures commands { commands_in planned ≡ users ∷ orders ∷ [] }
    ensures keys { filter_map key_of planned ≡ codes "users" ∷ codes "orders" ∷ [] }
    ensures untils { untils_in planned ≡ None ∷ [] }
    ensures all { first_of all_of planned ≡ None }
    ensures next { list_any is_next planned ≡ false }
    ensures more { is_open planned ≡ true }
{}

/// A deadline is that of the last group before it, wherever it stands before the next group. It
/// ends the command before it, so no take of that can come next.
pub fn a_deadline_is_that_of_the_group_before_it()
    ensures untils { untils_in dated
        ≡ None ∷ Some (record { moment = 9000; words = codes "within 2h" }) ∷ [] }
    ensures groups { groups_in dated ≡ 1 ∷ [] }
    ensures ended { is_open dated ≡ false }
{}

/// The rounds of the session: the end of task 0 with its error, then a cancel of command 1, and
/// then task 1, of which nobody knows how it ended.
pub fn the_rounds_of_the_session()
    ensures failed { filter_map end_of failed
        ≡ record { task = 0; outcome = outcome.Failure (codes "exit 1") } ∷ [] }
    ensures canceled { filter_map cancel_of canceled
        ≡ record { command = 1; why = codes "by hand" } ∷ [] }
    ensures gone { filter_map gone_of gone ≡ 1 ∷ [] }
    ensures no_end { filter_map end_of gone ≡ [] }
    ensures time { last_of time_of gone ≡ Some 1042 }
{}

/// Each kind of report keeps the order of its lines, and the last time counts.
pub fn a_round_is_heard_in_order()
    ensures ends { filter_map end_of busy
        ≡ record { task = 3; outcome = outcome.Success }
        ∷ record { task = 1; outcome = outcome.Failure (codes "exit 1") } ∷ [] }
    ensures gone { filter_map gone_of busy ≡ 2 ∷ [] }
    ensures done { filter_map done_of busy
        ≡ record { group = 0; why = codes "too late" } ∷ [] }
    ensures time { last_of time_of busy ≡ Some 1010 }
    ensures sizes { filter_map size_of busy ≡ record { pool = 0; size = 4 } ∷ [] }
    ensures hurry { list_any is_hurry busy ≡ true }
    ensures asked { list_any is_question busy ≡ false }
{}

/// What is asked of commands and of groups is kept in the order of the lines, next to the end that
/// the round reports.
pub fn a_round_asks_for_errors()
    ensures ends { filter_map end_of asked ≡ filter_map end_of failed }
    ensures asks { filter_map ask_of asked ≡ 0 ∷ 1 ∷ [] }
    ensures firsts { filter_map group_ask_of asked ≡ 0 ∷ [] }
    ensures question { list_any is_question asked ≡ false }
{}

/// A pool comes after those of the plan, so a command of the same round can take some of it.
pub fn a_plan_grows_by_a_pool()
    ensures pools { filter_map pool_of grown ≡ 2 ∷ [] }
    ensures commands { commands_in grown ≡ files ∷ [] }
{}

/// A try is over once a line says so, and no other try is.
pub fn a_try_is_over_once_a_line_says_so()
    ensures ended { list_any (is_over 3) busy ≡ true }
    ensures gone { list_any (is_over 2) busy ≡ true }
    ensures living { list_any (is_over 0) busy ≡ false }
{}

/// A plan grows by the lines that describe groups and commands, wherever they stand in a round. The
/// deadline is that of the new group, and the cancel adds nothing.
pub fn a_plan_grows_in_a_round()
    ensures groups { filter_map group_of growing ≡ stopping ∷ [] }
    ensures commands { commands_in growing
        ≡ record { outline = once 1; needs = []; takes = whole_pool ∷ [] } ∷ [] }
    ensures untils { untils_in growing
        ≡ Some (record { moment = 9000; words = codes "within 2h" }) ∷ [] }
    ensures more { is_open growing ≡ false }
{}
