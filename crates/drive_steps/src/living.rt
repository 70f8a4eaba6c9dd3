//! The tries that live between two rounds. Each of them runs, and is the last try of its command.

ghost use Rattle.drive_steps.specs.Living.{TheirEndsAreEnds};

/// The ends of living tries can be recorded: each one is that of a try which runs, and is the last
/// one of its command. The laws of a round ask for nothing else of its ends.
pub fn the_living_can_end()
    ensures { TheirEndsAreEnds }
{}
