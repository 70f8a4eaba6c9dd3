//! Worked examples: what the rules say about some rows, computed from the definitions alone,
//! without any of the code.
//!
//! Each function has an empty body, and its clauses are the example.

ghost use Rattle.std.specs.Prelude.{◌≡◌, [], ◌∷◌, true, false, Some, None, map};
ghost use Rattle.std.specs.Global.{Vec};
ghost use Rattle.night_plan.specs.declared.commands.Need.{Need as NeedLine};
ghost use Rattle.night_plan.specs.declared.commands.Subject.TheVariants as subject;
ghost use Rattle.night_plan.specs.declared.commands.Take.{Take as TakeLine};
ghost use Rattle.night_plan.specs.declared.facts.Phase.TheVariants as phase;
ghost use Rattle.night_plan.specs.declared.standings.Standing.TheVariants as standing;
ghost use Rattle.night_plan.specs.Choices.{AreInOrder, comes_before, taken, takes_of};
ghost use Rattle.night_plan.specs.Examples.{command_of, four_commands, four_in_order, known_row};
ghost use Rattle.night_plan.specs.Examples.{AreSix, six, at_first, after_a_failure};
ghost use Rattle.night_plan.specs.Examples.{after_two_failures, while_one_runs, StandSo};
ghost use Rattle.night_plan.specs.declared.commands.Way.TheVariants as way;
ghost use Rattle.night_plan.specs.Nights.{cancels, delay, stops, until};
ghost use Rattle.night_plan.specs.Plans.{horizon, names};
ghost use Rattle.night_plan.specs.Sessions.{reopened};
ghost use Rattle.night_plan.specs.Stops.{MustStop};
ghost use Rattle.night_plan.specs.Turns.{EndOk, Fail, Interrupt, all_turned};

/// After one to seven failures, the retry waits 30 seconds, then twice as long each time, and at
/// most ten minutes.
pub fn waits_double_up_to_their_cap()
    ensures { (needs : Vec NeedLine) (takes : Vec TakeLine)
        → map (delay (command_of needs takes 0 0)) (1 ∷ 2 ∷ 3 ∷ 4 ∷ 5 ∷ 6 ∷ 7 ∷ [])
        ≡ 30 ∷ 60 ∷ 120 ∷ 240 ∷ 480 ∷ 600 ∷ 600 ∷ [] }
{}

/// After a failure at 1,000, the first retry waits until 1,030. An interruption delays nothing. A
/// failure in the future, from before the clock was set back, delays nothing, either.
pub fn a_wait_is_over_at_its_moment()
    ensures at_once { (needs : Vec NeedLine) (takes : Vec TakeLine)
        → until (command_of needs takes 0 0) 1000 1 (phase.Failed 1000) ≡ Some 1030 }
    ensures last { (needs : Vec NeedLine) (takes : Vec TakeLine)
        → until (command_of needs takes 0 0) 1029 1 (phase.Failed 1000) ≡ Some 1030 }
    ensures over { (needs : Vec NeedLine) (takes : Vec TakeLine)
        → until (command_of needs takes 0 0) 1030 1 (phase.Failed 1000) ≡ None }
    ensures set_back { (needs : Vec NeedLine) (takes : Vec TakeLine)
        → until (command_of needs takes 0 0) 999 1 (phase.Failed 1000) ≡ None }
    ensures interrupted { (needs : Vec NeedLine) (takes : Vec TakeLine)
        → until (command_of needs takes 0 0) 1000 1 phase.Interrupted ≡ None }
{}

/// The priority of the group counts first, then that of the command, and then its number.
pub fn commands_come_in_order()
    ensures group { (needs : Vec NeedLine) (takes : Vec TakeLine)
        → comes_before (four_in_order needs takes) 2 1 ≡ true }
    ensures own { (needs : Vec NeedLine) (takes : Vec TakeLine)
        → comes_before (four_in_order needs takes) 1 0 ≡ true }
    ensures number { (needs : Vec NeedLine) (takes : Vec TakeLine)
        → comes_before (four_in_order needs takes) 2 3 ≡ true }
    ensures itself { (needs : Vec NeedLine) (takes : Vec TakeLine)
        → comes_before (four_in_order needs takes) 2 2 ≡ false }
{}

/// A plan had three commands at first. One of these, which comes after group 1, doesn't come after
/// the fourth command, which was added to that group later. The fifth command does.
pub fn a_group_names_the_commands_that_were_there()
    ensures first { (needs : Vec NeedLine) (takes : Vec TakeLine)
        → names (four_commands needs takes) (horizon 3 0) (subject.Group 1) 2 ≡ true }
    ensures added { (needs : Vec NeedLine) (takes : Vec TakeLine)
        → names (four_commands needs takes) (horizon 3 0) (subject.Group 1) 3 ≡ false }
    ensures later { (needs : Vec NeedLine) (takes : Vec TakeLine)
        → names (four_commands needs takes) (horizon 3 4) (subject.Group 1) 3 ≡ true }
    ensures other { (needs : Vec NeedLine) (takes : Vec TakeLine)
        → names (four_commands needs takes) (horizon 3 4) (subject.Group 1) 1 ≡ false }
{}

/// If a command names a pool twice, it takes both amounts.
pub fn amounts_of_one_pool_add_up()
    ensures { takes_of (record { pool = 1; amount = 2 } ∷ record { pool = 0; amount = 5 }
        ∷ record { pool = 1; amount = 1 } ∷ []) 1 ≡ 3 }
{}

/// A failure is counted, and an interruption isn't. Both leave the other commands as they are.
pub fn an_interruption_is_no_failure()
    ensures failed { all_turned (Fail 1 50) 0
        (known_row phase.Busy 0 ∷ known_row phase.Busy 2 ∷ [])
        ≡ known_row phase.Busy 0 ∷ known_row (phase.Failed 50) 3 ∷ [] }
    ensures interrupted { all_turned (Interrupt 1) 0
        (known_row phase.Busy 0 ∷ known_row phase.Busy 2 ∷ [])
        ≡ known_row phase.Busy 0 ∷ known_row phase.Interrupted 2 ∷ [] }
    ensures ended { all_turned (EndOk 0) 0
        (known_row phase.Busy 0 ∷ known_row phase.Busy 2 ∷ [])
        ≡ known_row phase.EndedOk 0 ∷ known_row phase.Busy 2 ∷ [] }
{}

/// An opening after a crash interrupts the commands that ran, and leaves everything else as it was.
pub fn an_opening_interrupts_what_ran()
    ensures { map reopened (phase.Fresh ∷ phase.Busy ∷ phase.EndedOk ∷ phase.Failed 5
        ∷ phase.Interrupted ∷ phase.Canceled ∷ [])
        ≡ phase.Fresh ∷ phase.Interrupted ∷ phase.EndedOk ∷ phase.Failed 5
        ∷ phase.Interrupted ∷ phase.Canceled ∷ [] }
{}

/// Six commands in three states: how they stand, what comes first, how much of the tapes is taken,
/// and which command has to stop.
pub fn six_commands_stand_by_the_rules()
    ensures at_first { (none well ends fails : Vec NeedLine) (nothing one two : Vec TakeLine)
        → AreSix none well ends fails nothing one two
        → StandSo (six none well ends fails nothing one two at_first) 0
        standing.Ready standing.Pending standing.Ready standing.Ready standing.Pending
        standing.Pending }
    ensures after_a_failure { (none well ends fails : Vec NeedLine) (nothing one two : Vec TakeLine)
        → AreSix none well ends fails nothing one two
        → StandSo (six none well ends fails nothing one two after_a_failure) 100
        standing.EndedOk standing.Ready standing.Failed standing.Busy standing.Pending
        standing.Ready }
    ensures after_two { (none well ends fails : Vec NeedLine) (nothing one two : Vec TakeLine)
        → AreSix none well ends fails nothing one two
        → StandSo (six none well ends fails nothing one two after_two_failures) 200
        standing.EndedOk standing.Failed standing.Failed standing.Canceled standing.Ready
        standing.GivenUp }
    ensures order { (none well ends fails : Vec NeedLine) (nothing one two : Vec TakeLine)
        → AreSix none well ends fails nothing one two
        → AreInOrder (six none well ends fails nothing one two at_first) (2 ∷ 3 ∷ 0 ∷ []) }
    ensures taken { (none well ends fails : Vec NeedLine) (nothing one two : Vec TakeLine)
        → AreSix none well ends fails nothing one two
        → taken (six none well ends fails nothing one two at_first) 0 (2 ∷ 3 ∷ 0 ∷ []) ≡ 2 }
    ensures stop { (none well ends fails : Vec NeedLine) (nothing one two : Vec TakeLine)
        → AreSix none well ends fails nothing one two
        → MustStop (six none well ends fails nothing one two after_a_failure) 3 }
{}

/// A failure doesn't stop a running command of its group if the way of the group is `stop`. In two
/// of the three ways no other command of the group begins, and in one of them the running ones have
/// to stop, too.
pub fn a_group_that_stops_lets_run_what_runs()
    ensures runs { (none well ends fails : Vec NeedLine) (nothing one two : Vec TakeLine)
        → MustStop (six none well ends fails nothing one two while_one_runs) 1 → ⊥ }
    ensures stops { map stops (way.GoOn ∷ way.Stop ∷ way.Cancel ∷ []) ≡ false ∷ true ∷ true ∷ [] }
    ensures cancels { map cancels (way.GoOn ∷ way.Stop ∷ way.Cancel ∷ [])
        ≡ false ∷ false ∷ true ∷ [] }
{}
