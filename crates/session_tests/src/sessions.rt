//! The session and its state: tables of calls with what each is answered, full sessions, sessions
//! that begin after a restart, and want of memory.

mod bounds;
mod calls;
mod deadlines;
mod fills;
mod fulls;
mod groups;
mod looks;
mod records;
mod restarts;
mod rooms;
mod scopes;
mod steps;
