//! What the parts of the executor's lines come to: a plan with names, the tries that still run, and
//! what a round reported.
//!
//! The executor writes a plan, then the tries of an earlier session, and then rounds. [`plans`]
//! puts the lines of the first part together to a [`NightPlan`](plans::NightPlan), or says why they
//! make none. Each line is judged by the lines before it: `specs/Additions.antt` defines what some
//! lines add to a plan, as a function of these lines alone. [`rounds`] reads the lines of a round:
//! what was reported (`specs/Heard.antt`), and how the plan grows (`specs/Growth.antt`).
#![tactic(auto)]

pub mod commands;
pub mod examples;
pub mod groups;
mod grown;
pub mod growth;
pub mod heard;
pub mod laws;
pub mod lives;
mod names;
pub mod plans;
pub mod rounds;
