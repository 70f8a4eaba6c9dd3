//! The mark of a night that has ended.

ghost use Rattle.std.specs.Prelude.{◌≡◌};
ghost use Rattle.drive_nights.specs.Marks.{mark_at, mark_of};

use crate::names::{Role, role_bytes};
use crate::nights::{base_of, name_at, number_text, top_above};
use crate::rooms::derive;
use row_view::copies::name_copy;
use run_model::{Name, Step, Wish};
use run_session::State;
use std::alloc::Allocator;

/// Returns the step that marks a night as ended: a value below its top. `None` if the night has no
/// top.
pub fn mark_of<A: Allocator>(state: &State<A>, night: u64) -> Option<Step>
    ensures { result ≡ mark_of state.now night }
{
    let base = base_of(state, night)?;
    mark_at(state, &name_at(state, top_above(state, night, base)))
}

/// Returns that step, by the name of the top.
fn mark_at<A: Allocator>(state: &State<A>, top: &Name) -> Option<Step>
    ensures { result ≡ mark_at state.now top.now }
{
    let name = Name::read(role_bytes(top, Role::Ended).as_slice())?;
    let value = Wish::Value(name_copy(b"ended"), number_text(state.clock().get()));
    Some(derive(&name, top, value))
}
