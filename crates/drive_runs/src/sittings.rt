//! What a program remembers of a night while the store is open.

ghost use Rattle.std.specs.Prelude.{◌≡◌, IfOk, length};
ghost use Rattle.drive_parts.specs.Names.{AreGroupNames, AreKeys, groups_of};
ghost use Rattle.night_drive.specs.Seen.{AreNames};

use crate::living::Living;
use crate::settings::{ended_by, sizes_of};
use drive_nights::nights::night_text;
use drive_nights::untils::Until;
use drive_parts::heard::Heard;
use drive_parts::plans::NightPlan;
use night_drive::ends::Ends;
use night_drive::guesses::Guesses;
use night_drive::names::Names;
use night_plan::commands::Plan;
use std::alloc::{AllocError, Global};

/// A plan with its names, and what was heard of the night beside what the store has.
#[derive(Drop)]
pub struct Sitting {
    pub plan: Plan,
    pub names: Names,
    /// The deadline of each group that has one.
    pub untils: Vec<Option<Until>>,
    /// The deadline of all groups together.
    pub all: Option<Until>,
    pub kept: Kept,
    pub ghost named: { AreNames plan names },
    pub ghost dated: { length untils.items ≡ length plan.groups.items },
    pub ghost plain: { AreGroupNames names.groups.items },
    pub ghost own_keys: { AreKeys (groups_of plan.commands.items) names.keys.items },
    pub ghost sized: { length kept.sizes.items ≡ length plan.pools.items },
}

/// What was heard of a night, without its plan.
#[derive(Drop)]
pub struct Kept {
    /// The number of the night.
    pub night: u64,
    /// The size of each pool.
    pub sizes: Vec<u32>,
    /// When tries ended.
    pub ends: Ends,
    /// The tries that live.
    pub living: Vec<Living>,
    /// Which commands the tasks may belong to. This only saves time.
    pub guesses: Guesses,
}

impl Kept {
    ghost use Rattle.drive_runs.specs.Sittings.{IsFresh};

    /// What was heard at the beginning of a night.
    pub fn new(alloc: Global, plan: &Plan, night: u64, now: u64) -> Result<Kept, AllocError>
        ensures { IfOk result (IsFresh plan.now night now) }
    {
        Ok(Kept {
            night,
            sizes: Vec::from_slice(alloc, plan.pools.as_slice())?,
            ends: Ends {
                moments: Vec::new(alloc),
                otherwise: now,
            },
            living: Vec::new(alloc),
            guesses: Guesses::new(alloc),
        })
    }
}

impl Kept {
    ghost use Rattle.drive_runs.specs.Sittings.{HasSettings};

    /// The same, with the sizes of pools that were reported. If retries don't wait any longer, all
    /// tries ended long ago.
    pub fn with_settings(
        self,
        alloc: Global,
        heard: &Heard,
        pools: &[u32],
    ) -> Result<Kept, AllocError>
        ensures { IfOk result (HasSettings self heard.now pools.now) }
    {
        let Kept {
            night,
            sizes,
            ends,
            living,
            guesses,
        } = self;
        let sizes = sizes_of(alloc, sizes.as_slice(), heard.sizes.as_slice(), pools)?;
        Ok(Kept {
            night,
            sizes,
            ends: ended_by(alloc, heard.hurry, ends),
            living,
            guesses,
        })
    }
}

impl Sitting {
    ghost use Rattle.drive_nights.specs.Nights.{night_text};
    ghost use Rattle.drive_runs.specs.Sittings.{HasPlan};

    /// A plan, and what was heard of its night.
    pub fn of(plan: NightPlan, kept: Kept) -> Sitting
        requires { length kept.sizes.items ≡ length plan.plan.pools.items }
        ensures plan { HasPlan result plan }
        ensures kept { result.kept ≡ kept }
        ensures night { result.names.night ≡ night_text kept.night }
    {
        let NightPlan {
            plan,
            groups,
            keys,
            untils,
            all,
            next: _,
        } = plan;
        let names = Names {
            groups,
            keys,
            night: night_text(kept.night),
        };
        Sitting {
            plan,
            names,
            untils,
            all,
            kept,
        }
    }

    /// The plan, and what was heard of its night.
    pub fn parts(self) -> (NightPlan, Kept)
        ensures sized { length result.1.sizes.items ≡ length result.0.plan.pools.items }
        ensures plan { HasPlan self result.0 }
        ensures kept { result.1 ≡ self.kept }
    {
        let Sitting {
            plan,
            names,
            untils,
            all,
            kept,
        } = self;
        let Names {
            groups,
            keys,
            night: _,
        } = names;
        let plan = NightPlan {
            plan,
            groups,
            keys,
            untils,
            all,
            next: false,
        };
        (plan, kept)
    }
}
