//! The sizes and places of both layouts.

use crate::asserts::holds;
use run_journal::{place_of_segment, segment_size, slot_size};
use run_model::Layout;

/// How many bytes a slot and a segment have, and where the segments begin.
static SIZES: [(Layout, u64, u64, (u64, u64)); 2] = [
    (Layout::Small, 524_288, 262_144, (1_048_576, 1_310_720)),
    (Layout::Large, 2_097_152, 1_048_576, (4_194_304, 5_242_880)),
];

/// Says whether slots and segments of this layout have these sizes, and the segments these places.
fn is_laid_out(layout: Layout, slot: u64, segment: u64, places: (u64, u64)) -> bool {
    slot_size(layout) == slot
        && segment_size(layout) == segment
        && place_of_segment(layout, 0) == places.0
        && place_of_segment(layout, 1) == places.1
}

#[test]
fn each_layout_has_its_sizes_and_places(rt: HostRuntime) {
    for (row, (layout, slot, segment, places)) in SIZES.iter().enumerate() {
        let right = is_laid_out(*layout, *slot, *segment, *places);
        holds(&rt, right, "layout", row as u64);
    }
}
