//! Laws of a plan with names.

ghost use Rattle.std.specs.Prelude.{List, Option, ℕ};
ghost use Rattle.night_drive.specs.Distinct.{AreDistinct};
ghost use Rattle.night_drive.specs.Seen.{AreNames};
ghost use Rattle.drive_parts.specs.declared.plans.NightPlan.{NightPlan};
ghost use Rattle.drive_parts.specs.Laws.{names_of};

/// The names of a plan are the names of its groups and commands in each night, and by them each
/// task of a store belongs to one command at most.
pub fn each_plan_has_distinct_names()
    ensures names { (n : NightPlan) (night : Option (List ℕ))
        → AreNames n.plan (names_of n night) }
    ensures distinct { (n : NightPlan) (night : Option (List ℕ))
        → AreDistinct n.plan (names_of n night) }
{}
