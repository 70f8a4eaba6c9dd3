//! The plan of a night: groups, pools, and commands in the order of the file.

ghost use Rattle.std.specs.Prelude.{length};
ghost use Rattle.night_plan.specs.Plans.{IsSound};

/// Says what the first failure of a command does to the rest of its group.
#[derive(Clone, Copy)]
pub enum Way {
    /// Nothing.
    GoOn,
    /// No other command of the group begins.
    Stop,
    /// No other command of the group begins, and those that run have to stop.
    Cancel,
}

/// A group of commands.
#[derive(Clone, Copy)]
pub struct Group {
    /// Commands of a group with a higher priority come first.
    pub priority: u16,
    pub way: Way,
}

/// How much of a pool a command takes while it runs.
#[derive(Clone, Copy)]
pub struct Take {
    pub pool: usize,
    pub amount: u32,
}

/// One command, or all commands of a group.
#[derive(Clone, Copy)]
pub enum Subject {
    Command(usize),
    Group(usize),
}

/// How a named command has to have ended before another one may begin.
#[derive(Clone, Copy)]
pub enum When {
    /// Each named command ended well.
    Well,
    /// One of the named commands failed for good.
    Failed,
    /// Each named command is final: it ended well, failed, was canceled or was given up.
    Ended,
}

/// Something that has to happen before a command may begin.
#[derive(Clone, Copy)]
pub struct Need {
    pub of: Subject,
    pub when: When,
}

/// A command of the file.
#[derive(Drop)]
pub struct Command {
    pub group: usize,
    /// Among commands whose groups have the same priority, those with a higher priority come first.
    pub priority: u16,
    /// If there are any, and all of them are [`When::Ended`], the command is a *cleanup*: it begins
    /// even after its group was canceled, has passed its deadline, or has stopped on a failure.
    pub needs: Vec<Need>,
    /// A pool may be named more than once; then its amounts add up.
    pub takes: Vec<Take>,
    /// How often the command is tried again after a failure.
    pub retries: u32,
    /// How many seconds the first retry waits.
    pub wait: u32,
    /// Each later retry waits this many times as long as the one before it; 1 for equal waits.
    pub factor: u32,
    /// No retry waits longer than this many seconds.
    pub cap: u32,
}

/// A sound plan: its commands name only what exists, and no command comes after itself.
#[derive(Drop)]
pub struct Plan {
    /// How many commands the plan had when it was made. Their needs may name any of these. The
    /// needs of a command that was added later name only commands before it.
    pub first: usize,
    pub groups: Vec<Group>,
    /// The size of each pool.
    pub pools: Vec<u32>,
    pub commands: Vec<Command>,
    /// The numbers of the commands, each after all those that it has to come after.
    pub order: Vec<usize>,
    /// The place of each command in that order.
    pub places: Vec<usize>,
    pub ghost sound: { IsSound first groups.items (length pools.items) commands.items order.items
        places.items },
}
