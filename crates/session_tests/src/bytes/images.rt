//! Images put together from pieces, and what a new state makes of them.

use crate::asserts::{done, holds};
use row_view::ImageVersion;
use run_model::{Fault, Layout};
use run_session::State;
use std::alloc::Global;
use std::process::Abort;

/// Bytes one after the other.
pub type Pieces = &'static [&'static [u8]];

/// How many rows an image has: of scopes, of groups, and of tasks.
pub type Counts = (u16, u16, u16);

/// The fields of a head in their order, as numbers.
#[derive(Clone, Copy)]
pub struct Head {
    pub version: u8,
    pub clock: u64,
    pub count: u64,
    pub rows: Counts,
}

impl Head {
    /// The head of so many rows in version 2, at clock 200 and after ten events.
    pub fn of(rows: Counts) -> Head {
        Head {
            version: 2,
            clock: 200,
            count: 10,
            rows,
        }
    }
}

/// Appends pieces, one after the other.
pub fn push_all(rt: &impl Abort, image: &mut Vec<u8>, pieces: &[&[u8]]) {
    for piece in pieces.iter() {
        done(rt, image.extend_from_slice(piece), "memory");
    }
}

/// Appends the 23 bytes of a head.
fn push_head(rt: &impl Abort, image: &mut Vec<u8>, head: Head) {
    let (scopes, groups, tasks) = head.rows;
    let fields: [&[u8]; 6] = [
        &[head.version],
        &head.clock.to_be_bytes(),
        &head.count.to_be_bytes(),
        &scopes.to_be_bytes(),
        &groups.to_be_bytes(),
        &tasks.to_be_bytes(),
    ];
    push_all(rt, image, &fields);
}

/// A head and the pieces after it.
pub fn image(rt: &impl Abort, alloc: Global, head: Head, pieces: &[&[u8]]) -> Vec<u8> {
    let mut image = Vec::new(alloc);
    push_head(rt, &mut image, head);
    push_all(rt, &mut image, pieces);
    image
}

/// What is read as an image in a new store of this layout.
pub fn read(alloc: Global, layout: Layout, image: &[u8]) -> Result<(State, ImageVersion), Fault> {
    State::new(alloc, layout)?.read_image(image)
}

/// Says whether these bytes are what a state writes, over bytes of 0xEE.
fn is_written(state: &State, out: &mut [u8], again: &[u8]) -> bool {
    if 1 << 63 <= state.count() || out.len() < state.image_bound() {
        return false;
    }
    let len = state.write_image(out);
    len == again.len() && out.starts_with(again)
}

/// Room for the greatest image, with bytes of 0xEE.
fn room(rt: &impl Abort, alloc: Global) -> Vec<u8> {
    done(rt, Vec::from_elem(alloc, 0xee, 1_913_559), "memory")
}

/// The version of the image that is read, and whether these bytes are written again.
pub fn read_again(
    rt: &impl Abort,
    alloc: Global,
    layout: Layout,
    image: &[u8],
    again: &[u8],
) -> Result<(ImageVersion, bool), Fault> {
    let (state, version) = read(alloc, layout, image)?;
    let mut out = room(rt, alloc);
    let reported = (version, is_written(&state, &mut out, again));
    drop(state);
    Ok(reported)
}

/// Says whether these bytes are read as an image of version 2, and written again.
pub fn is_kept(rt: &impl Abort, alloc: Global, layout: Layout, image: &[u8]) -> bool {
    read_again(rt, alloc, layout, image, image) == Ok((ImageVersion::Two, true))
}

/// Says whether these bytes are no image in a store of this layout.
pub fn is_refused(alloc: Global, layout: Layout, image: &[u8]) -> bool {
    match read(alloc, layout, image) {
        Ok((state, _)) => {
            drop(state);
            false
        }
        Err(fault) => fault == Fault::BadImage,
    }
}

/// Says whether an image is kept, or else refused, in a small store.
pub fn is_read(rt: &impl Abort, alloc: Global, image: &[u8], kept: bool) -> bool {
    if kept {
        is_kept(rt, alloc, Layout::Small, image)
    } else {
        is_refused(alloc, Layout::Small, image)
    }
}

/// Says whether the first image is kept and the second refused, in a store of this layout.
fn is_pair(rt: &impl Abort, alloc: Global, layout: Layout, good: &[u8], bad: &[u8]) -> bool {
    is_kept(rt, alloc, layout, good) && is_refused(alloc, layout, bad)
}

/// Asserts that the first image is kept and the second refused, in small stores and in large ones.
pub fn assert_pair(
    rt: &impl Abort,
    alloc: Global,
    good: &[u8],
    bad: &[u8],
    what: &str,
    row: usize,
) {
    holds(rt, is_pair(rt, alloc, Layout::Small, good, bad), what, row);
    holds(rt, is_pair(rt, alloc, Layout::Large, good, bad), what, row);
}

/// What the second image breaks, the numbers of rows, and the rows of both.
pub type Pair = (&'static str, Counts, Pieces, Pieces);

/// Asserts of each pair that the first image is kept and the second refused.
pub fn assert_pairs(rt: &impl Abort, alloc: Global, pairs: &[Pair]) {
    for (n, (what, rows, good, bad)) in pairs.iter().enumerate() {
        let good = image(rt, alloc, Head::of(*rows), good);
        let bad = image(rt, alloc, Head::of(*rows), bad);
        assert_pair(rt, alloc, &good, &bad, what, n);
    }
}
