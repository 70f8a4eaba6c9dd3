//! The effect of an opening of a store on the facts about a night.

ghost use Rattle.night_drive.specs.Openings.{InterruptsWhatRan};

/// An opening interrupts the commands that were running. It changes no fact about any other
/// command, and adds no failure. So the facts in the store after a crash are those with which the
/// next session of `night_plan` begins.
pub fn an_opening_interrupts_what_ran()
    ensures { InterruptsWhatRan }
{}
