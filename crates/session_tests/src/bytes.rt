//! Records, the rows of images, and whole images as bytes, most of them from outside.

mod fields;
pub mod greatest;
pub mod images;
mod records;
mod rows;
mod rules;
mod worked;
