//! Groups and tasks: each call on its way, and its refusals in their order.

mod calls;
mod steps;
mod stories;
