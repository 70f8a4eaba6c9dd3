//! A walk through the nodes of a tree, in the order in which they are drawn. It knows the parent of
//! each node.

ghost use Rattle.std.specs.Prelude.{◌≡◌, ◌<◌, ◌≤◌, ◌∷◌, IfSome, Some, length, slice_get};
ghost use Rattle.state_views.specs.declared.tree_walks.TheConstants.{MOST_NODES};
ghost use Rattle.state_views.specs.Trees.{behind, by_siblings, children, mark, parent_of};
ghost use Rattle.state_views.specs.Trees.{passing};
ghost use Rattle.state_views.specs.Walks.{AreRising, IsAt, after, drawn_from, drawn_next};

use arrayvec::ArrayVec;
use console_lines::push;

/// The greatest number of nodes in a tree: the scopes, groups and tasks of a large store.
pub const MOST_NODES: usize = 12416;

/// The branches that are drawn for the nodes above a node: at most four bytes for each.
pub type Above = ArrayVec<u8, 49664>;

/// Returns the node that is drawn after this one; `None` after the last one. `above` holds the
/// branches above the one node before the call, and those above the other node after it.
pub fn next_node(parents: &[u16], node: u16, above: &mut Above) -> Option<u16>
    requires few { length parents.now ≤ MOST_NODES }
    requires rising { AreRising parents.now }
    requires at { IsAt parents.now node above.old.items }
    ensures next { drawn_from parents.now node ≡ node ∷ drawn_next parents.now result }
    ensures at { IfSome result (λ next. IsAt parents.now next above.new.items) }
{
    match first_after(parents, node, node) {
        Some(child) => {
            enter(parents, node, child, above);
            Some(child)
        }
        None => next_beside(parents, node, above),
    }
}

/// Returns the mark before a node's own text, which shows whether siblings follow.
pub fn mark(parents: &[u16], node: u16) -> &'static [u8]
    requires few { length parents.now ≤ MOST_NODES }
    ensures { result.now ≡ mark parents.now node }
{
    by_siblings(
        b"\xe2\x94\x9c\xe2\x94\x80",
        b"\xe2\x94\x94\xe2\x94\x80",
        parents,
        node,
    )
}

/// Returns the text that is drawn for a node in the lines of the nodes below it.
fn passing(parents: &[u16], node: u16) -> &'static [u8]
    requires few { length parents.now ≤ MOST_NODES }
    ensures { result.now ≡ passing parents.now node }
{
    by_siblings(b"\xe2\x94\x82 ", b"  ", parents, node)
}

/// Returns the first of two texts if siblings of the node follow, and otherwise the second.
fn by_siblings(
    more: &'static [u8],
    last: &'static [u8],
    parents: &[u16],
    node: u16,
) -> &'static [u8]
    requires few { length parents.now ≤ MOST_NODES }
    ensures { result.now ≡ by_siblings more.now last.now parents.now node }
{
    match first_after(parents, node, parent_of(parents, node)) {
        Some(_) => more,
        None => last,
    }
}

/// Returns the node that is drawn after this one and all nodes below it: the next sibling of this
/// node, or of the nearest node above it that has one.
fn next_beside(parents: &[u16], node: u16, above: &mut Above) -> Option<u16>
    requires few { length parents.now ≤ MOST_NODES }
    requires rising { AreRising parents.now }
    requires at { IsAt parents.now node above.old.items }
    ensures next { after node parents.now node ≡ drawn_next parents.now result }
    ensures at { IfSome result (λ next. IsAt parents.now next above.new.items) }
{
    let mut place = node;
    while place != 0 {
        let parent = parent_of(parents, place);
        if let Some(next) = first_after(parents, place, parent) {
            return Some(next);
        }
        leave(parents, place, parent, above);
        place = parent;
    }
    None
}

/// Moves from a node to its first child.
fn enter(parents: &[u16], node: u16, child: u16, above: &mut Above)
    requires few { length parents.now ≤ MOST_NODES }
    requires rising { AreRising parents.now }
    requires at { IsAt parents.now node above.old.items }
    requires child { slice_get (children parents.now node) 0 ≡ Some child }
    ensures { IsAt parents.now child above.new.items }
{
    if node != 0 {
        push(above, passing(parents, node));
    }
}

/// Moves from a node to its parent.
fn leave(parents: &[u16], node: u16, parent: u16, above: &mut Above)
    requires few { length parents.now ≤ MOST_NODES }
    requires rising { AreRising parents.now }
    requires below { 0 < node }
    requires at { IsAt parents.now node above.old.items }
    requires parent { parent ≡ parent_of parents.now node }
    ensures { IsAt parents.now parent above.new.items }
{
    if parent != 0 {
        let drawn = passing(parents, parent).len();
        above.truncate(above.len() - drawn);
    }
}

/// Returns the parent of a node.
fn parent_of(parents: &[u16], node: u16) -> u16
    ensures { result ≡ parent_of parents.now node }
{
    match parents.get(node as usize) {
        Some(parent) => *parent,
        None => 0,
    }
}

/// Returns the first of the nodes after a node that have this parent.
fn first_after(parents: &[u16], node: u16, parent: u16) -> Option<u16>
    requires few { length parents.now ≤ MOST_NODES }
    ensures { result ≡ slice_get (behind parents.now node parent) 0 }
{
    for place in node as usize + 1..parents.len() {
        if parents[place] == parent {
            return Some(place as u16);
        }
    }
    None
}
