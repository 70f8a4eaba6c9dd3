//! A [`Renewal`] of a state says which of its scopes, groups and tasks are kept, and under which
//! new numbers. It writes the image of the kept part.

ghost use Rattle.std.specs.List.{flat_map, AllByRecursion};
ghost use Rattle.std.specs.Prelude.{◌≡◌, ◌+◌, ◌*◌, ◌<◌, ◌≤◌, ◌^◌, drop, length, true, IfOk, IfErr};
ghost use Rattle.std.specs.Prelude.{IsTrue, MatchResult};
ghost use Rattle.run_model.specs.declared.bounds.TheConstants.{GREATEST_MOMENT};
ghost use Rattle.run_model.specs.declared.faults.Fault.TheVariants.{Memory};
ghost use Rattle.row_view.specs.declared.heads.ImageVersion.TheVariants.{Two};
ghost use Rattle.row_view.specs.Image.{greatest_image, group_bytes, head_of, image};
ghost use Rattle.row_view.specs.Image.{is_kept_group, is_kept_scope, is_kept_task};
ghost use Rattle.row_view.specs.Image.{scope_bytes, task_bytes};
ghost use Rattle.row_view.specs.Keeping.{IsImage};
ghost use Rattle.row_view.specs.Writing.{put_at};
ghost use Rattle.state_renewal.specs.Marks.{AreMarks};
ghost use Rattle.state_renewal.specs.Renewed.{fits_in, renewed, renewed_in};

use crate::flags::{flag_groups, flag_scopes, flag_tasks};
use crate::marks::Marks;
use crate::renewed_rows::{put_groups, put_scopes, put_tasks};
use record_view::put_head;
use row_view::{ImageHead, ImageVersion};
use run_model::{Fault, Layout};
use run_session::State;
use std::alloc::{Allocator, Global};

/// The part of a state that a renewal keeps.
#[derive(Drop)]
pub struct Renewal<A: Allocator = Global> {
    /// Which scopes are kept, and their new numbers.
    pub scopes: Marks<A>,
    /// Which groups are kept, and their new numbers.
    pub groups: Marks<A>,
    /// Which tasks are kept, and their new numbers.
    pub tasks: Marks<A>,
}

impl<B: Allocator + Copy> Renewal<B> {
    /// Returns the part of this state that a renewal keeps. `Memory` if the memory for it is
    /// refused.
    pub fn new<A: Allocator>(alloc: B, state: &State<A>) -> Result<Renewal<B>, Fault>
        ensures marks { IfOk result (λ r. AreMarks state.now r.scopes r.groups r.tasks) }
        ensures fault { IfErr result (λ fault. fault ≡ Memory) }
    {
        let _rules = state.count();
        let _few = (state.scope_count(), state.group_count(), state.task_count());
        let scopes = marked(alloc, flag_scopes(alloc, state.tree(), state.groups()))?;
        let groups = marked(alloc, flag_groups(alloc, state.groups(), scopes.flags()))?;
        let tasks = marked(alloc, flag_tasks(alloc, state.groups(), groups.flags()))?;
        Ok(Renewal {
            scopes,
            groups,
            tasks,
        })
    }
}

impl<B: Allocator> Renewal<B> {
    /// Returns the number of kept scopes, including root.
    pub fn scopes_left<A: Allocator>(&self, state: &State<A>) -> u16
        requires marks { AreMarks state.now self.now.scopes self.now.groups self.now.tasks }
        ensures count { result ≡ length (renewed state.now).tree.scopes }
        ensures root { 1 ≤ result }
    {
        let _rules = state.count();
        self.scopes.number(state.scope_count() as u16)
    }

    /// Returns the number of kept groups.
    pub fn groups_left<A: Allocator>(&self, state: &State<A>) -> u16
        requires marks { AreMarks state.now self.now.scopes self.now.groups self.now.tasks }
        ensures count { result ≡ length (renewed state.now).work.groups }
    {
        self.groups.number(state.group_count() as u16)
    }

    /// Returns the number of kept tasks.
    pub fn tasks_left<A: Allocator>(&self, state: &State<A>) -> u16
        requires marks { AreMarks state.now self.now.scopes self.now.groups self.now.tasks }
        ensures count { result ≡ length (renewed state.now).work.tasks }
    {
        self.tasks.number(state.task_count() as u16)
    }

    /// Returns whether the renewed state fits into a store of this layout.
    pub fn fits<A: Allocator>(&self, state: &State<A>, layout: Layout) -> bool
        requires marks { AreMarks state.now self.now.scopes self.now.groups self.now.tasks }
        ensures { result ≡ fits_in layout (renewed state.now) }
    {
        self.scopes_left(state) as usize <= layout.most_scopes()
            && self.tasks_left(state) as usize <= layout.most_tasks()
    }

    /// Writes the image of the renewed state to the beginning of the buffer, for a store of a
    /// layout into which it fits, and returns the length of the image. Takes no memory.
    ///
    /// The caller passes the state and the layout, so there are two clauses more than those of
    /// [`State::write_image`].
    pub fn write_image<A: Allocator>(
        &self,
        state: &State<A>,
        layout: Layout,
        out: &mut [u8],
    ) -> usize
        requires marks { AreMarks state.now self.now.scopes self.now.groups self.now.tasks }
        requires few { state.now.count < 2 ^ 63 }
        requires fits { fits_in layout (renewed state.now) ≡ true }
        requires room { greatest_image Two layout ≤ length out.old }
        ensures len { result ≡ length (image (renewed state.now)) }
        ensures written { out.new ≡ put_at out.old 0 (image (renewed state.now)) }
        ensures image { IsImage Two layout (image (renewed state.now))
            (renewed_in layout state.now) }
    {
        let _rules = state.count();
        let end = put_head(out, 0, &self.renewed_head(state));
        let end = self.put_renewed_scopes(state, out, end);
        let end = self.put_renewed_groups(state, out, end);
        self.put_renewed_tasks(state, out, end)
    }

    /// Returns the head of the image, which comes before the renewed rows.
    fn renewed_head<A: Allocator>(&self, state: &State<A>) -> ImageHead
        requires marks { AreMarks state.now self.now.scopes self.now.groups self.now.tasks }
        ensures head { result ≡ head_of Two (renewed state.now) }
        ensures clock { state.now.tree.clock ≤ GREATEST_MOMENT }
    {
        ImageHead {
            version: ImageVersion::Two,
            clock: state.clock().get(),
            count: state.count(),
            scopes: self.scopes_left(state) - 1,
            groups: self.groups_left(state),
            tasks: self.tasks_left(state),
        }
    }

    /// Writes the renewed scopes after root at a place, and returns the place after them.
    fn put_renewed_scopes<A: Allocator>(&self, state: &State<A>, out: &mut [u8], at: usize) -> usize
        requires marks { AreMarks state.now self.now.scopes self.now.groups self.now.tasks }
        requires room { at + 192 * length (drop 1 (renewed state.now).tree.scopes)
            ≤ length out.old }
        ensures end { result ≡ at
            + length (flat_map scope_bytes (drop 1 (renewed state.now).tree.scopes)) }
        ensures written { out.new ≡ put_at out.old at
            (flat_map scope_bytes (drop 1 (renewed state.now).tree.scopes)) }
        ensures kept { AllByRecursion (λ row. IsTrue (is_kept_scope row))
            (drop 1 (renewed state.now).tree.scopes) }
        ensures most { result ≤ at + 192 * length (drop 1 (renewed state.now).tree.scopes) }
    {
        let _rules = state.count();
        let rows = state.tree().rows();
        let flags = self.scopes.flags();
        put_scopes(&rows[1..], &flags[1..], &self.scopes, out, at)
    }

    /// Writes the renewed groups at a place, and returns the place after them.
    fn put_renewed_groups<A: Allocator>(&self, state: &State<A>, out: &mut [u8], at: usize) -> usize
        requires marks { AreMarks state.now self.now.scopes self.now.groups self.now.tasks }
        requires room { at + 103 * length (renewed state.now).work.groups ≤ length out.old }
        ensures end { result ≡ at + length (flat_map group_bytes (renewed state.now).work.groups) }
        ensures written { out.new ≡ put_at out.old at
            (flat_map group_bytes (renewed state.now).work.groups) }
        ensures kept { AllByRecursion (λ row. IsTrue (is_kept_group row))
            (renewed state.now).work.groups }
        ensures most { result ≤ at + 103 * length (renewed state.now).work.groups }
    {
        let _rules = state.count();
        put_groups(state.groups(), self.groups.flags(), &self.scopes, out, at)
    }

    /// Writes the renewed tasks at a place, and returns the place after them.
    fn put_renewed_tasks<A: Allocator>(&self, state: &State<A>, out: &mut [u8], at: usize) -> usize
        requires marks { AreMarks state.now self.now.scopes self.now.groups self.now.tasks }
        requires room { at + 136 * length (renewed state.now).work.tasks ≤ length out.old }
        ensures end { result ≡ at
            + length (flat_map (task_bytes Two) (renewed state.now).work.tasks) }
        ensures written { out.new ≡ put_at out.old at
            (flat_map (task_bytes Two) (renewed state.now).work.tasks) }
        ensures kept { AllByRecursion (λ row. IsTrue (is_kept_task Two row))
            (renewed state.now).work.tasks }
        ensures most { result ≤ at + 136 * length (renewed state.now).work.tasks }
    {
        let _rules = state.count();
        let _few = state.task_count();
        put_tasks(state.groups(), &self.groups, &self.tasks, out, at)
    }
}

/// Returns the marks that these flags give, if there are flags.
fn marked<A: Allocator + Copy>(
    alloc: A,
    flags: Result<Vec<bool, A>, Fault>,
) -> Result<Marks<A>, Fault>
    requires few { IfOk flags (λ flags. length flags.items < 2 ^ 16) }
    requires fault { IfErr flags (λ fault. fault ≡ Memory) }
    ensures flags { IfOk result (λ marks.
        MatchResult flags (λ flags. marks ≡ flags.items) (λ fault. ⊥)) }
    ensures fault { IfErr result (λ fault. fault ≡ Memory) }
{
    Marks::new(alloc, flags?)
}
