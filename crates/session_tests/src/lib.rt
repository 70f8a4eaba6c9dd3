//! Tests of the session and of what it stands on: values, records and images as bytes, worked
//! examples of the tree of scopes, stories of groups and tasks, and the session itself by tables of
//! calls with what each is answered, also full, and in want of memory.
#![tactic(auto)]

#[cfg(test)]
mod asserts;
#[cfg(test)]
mod bytes;
#[cfg(test)]
mod groups;
#[cfg(test)]
mod heaps;
#[cfg(test)]
mod runners;
#[cfg(test)]
mod sessions;
#[cfg(test)]
mod trees;
#[cfg(test)]
mod values;
