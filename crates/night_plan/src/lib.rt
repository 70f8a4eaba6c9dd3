//! Decides which commands of a night to begin now, from the plan and from what is known.
//!
//! Begin with [`plans::make_plan`], which takes groups, pools and commands, and refuses a circle of
//! needs. [`choices::choose`] answers what begins now, and at which later moment to ask again.
//! [`standings::standings`] says how each command stands, and [`stops::to_stop`] which running
//! commands have to stop. The laws about whole nights are in `turns` and `sessions`.
#![tactic(auto)]

pub mod choices;
pub mod commands;
pub mod examples;
pub mod facts;
pub mod growth;
pub mod links;
pub mod plans;
pub mod pools;
pub mod questions;
pub mod ranks;
pub mod sessions;
pub mod standings;
pub mod steps;
pub mod stops;
pub mod turns;
