//! A [`Moment`] is what a file in memory was before one of its calls.

use crate::places::Place;
use std::snapshot::Snapshot;

/// What a file was. Only proofs read its bytes and places, so it keeps none of them.
#[derive(Drop)]
pub struct Moment {
    pub bytes: Snapshot<Vec<u8>>,
    pub places: Snapshot<Vec<Place>>,
    pub end: Place,
}
