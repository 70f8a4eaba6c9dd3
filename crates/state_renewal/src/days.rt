//! Examples of the time after a renewal, computed row by row.

ghost use Rattle.std.specs.Option.{option_map};
ghost use Rattle.std.specs.Prelude.{◌≡◌, IsSomeAnd, Ok, Some, codes, false, map, true};
ghost use Rattle.run_model.specs.declared.answers.Answer.TheVariants as answer;
ghost use Rattle.run_model.specs.declared.commands.Command.TheVariants as command;
ghost use Rattle.run_model.specs.declared.layouts.Layout.TheVariants.{Small};
ghost use Rattle.run_model.specs.declared.scopes.Kind.TheVariants.{Cancel};
ghost use Rattle.run_model.specs.declared.tasks.Phase.TheVariants as phase;
ghost use Rattle.run_model.specs.Allowed.{allowed, run};
ghost use Rattle.run_model.specs.Event.{Derive};
ghost use Rattle.run_model.specs.Replies.{reply};
ghost use Rattle.run_model.specs.State.{formatted};
ghost use Rattle.state_renewal.specs.Examples.{detached_part, retried};
ghost use Rattle.state_renewal.specs.Renewed.{renewed, state_renumbered};
ghost use Rattle.state_renewal.specs.Days.{day, day_renumbered, day_left, first_night, second_day};
ghost use Rattle.state_renewal.specs.GoingOn.{GoesOn, all_name_part, going_on};
ghost use Rattle.state_renewal.specs.PartEvents.{event_renumbered, names_part};

/// The events of a day refer to rows that go on, by the new numbers. After them, the renewed store
/// holds exactly the part of the old store's state that goes on. Rows that are made on that day get
/// the next numbers.
pub fn a_day_after_a_renewal()
    ensures names { all_name_part (going_on retried) day ≡ true }
    ensures events { map (event_renumbered (going_on retried)) day ≡ day_renumbered }
    ensures renewed { run (renewed retried) day_renumbered ≡ Some day_left }
    ensures old { option_map (state_renumbered (going_on retried)) (run retried day)
        ≡ Some day_left }
{}

/// At the end of that day a third task of the group is held in both stores. It gets the next
/// number: 7 in the old store, and 5 in the renewed one, from which tasks 0 and 2 were dropped.
pub fn a_command_at_the_end_of_that_day()
    ensures old { option_map (λ q. reply q 0 (command.Go (codes "g") (codes "copy") (codes "e")))
        (run retried day) ≡ Some (Ok (answer.Task 7 phase.Held)) }
    ensures renewed { reply day_left 0 (command.Go (codes "g") (codes "copy") (codes "e"))
        ≡ Ok (answer.Task 5 phase.Held) }
{}

/// A first session and a day after it that meet the premises of the laws. Two of the day's events
/// refer to rows that are made on that day.
pub fn a_night_and_a_day_meet_the_premises()
    ensures { IsSomeAnd (run (formatted Small) first_night) (λ p. IsSomeAnd (run p second_day)
        (λ q. GoesOn p second_day q)) }
{}

/// The name of a dropped row is free again, but only in the renewed store.
pub fn a_name_that_went_is_free_in_the_renewed_store()
    ensures names { names_part (going_on detached_part) (Derive (codes "y") 1 Cancel) ≡ true }
    ensures old { allowed detached_part (Derive (codes "y") 1 Cancel) ≡ false }
    ensures renewed { allowed (renewed detached_part) (Derive (codes "y") 1 Cancel) ≡ true }
{}
