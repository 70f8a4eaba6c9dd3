//! The image of a state: how it is written, and how it is read back.

ghost use Rattle.std.specs.Prelude.{◌≡◌, ◌==◌, ◌<◌, ◌≤◌, ◌^◌, ◌&&◌, ℕ, List, None, Some, length};
ghost use Rattle.std.specs.Prelude.{IfOk, IfErr};
ghost use Rattle.run_model.specs.declared.bounds.TheConstants.{GREATEST_MOMENT};
ghost use Rattle.run_model.specs.declared.faults.Fault.TheVariants.{BadImage};
ghost use Rattle.run_model.specs.Session.{opened};
ghost use Rattle.run_model.specs.State.{State as StateOf, new_tree, new_work};
ghost use Rattle.row_view.specs.declared.heads.ImageVersion.TheVariants.{Two};
ghost use Rattle.row_view.specs.Between.{fits_between};
ghost use Rattle.row_view.specs.Image.{greatest_image, head_of, image};
ghost use Rattle.row_view.specs.Keeping.{IsImage, Rows};
ghost use Rattle.row_view.specs.RowReading.{head_at};
ghost use Rattle.row_view.specs.Writing.{put_at};
ghost use Rattle.scope_tree.specs.Whole.{image_at, whole};
ghost use Rattle.run_session.specs.Shown.{image_bound};

use super::State;
use record_view::{put_head, read_head};
use row_view::{ImageHead, ImageVersion};
use run_model::Fault;
use scope_tree::Tree;
use std::alloc::Allocator;
use task_group::Groups;

impl<A: Allocator> State<A> {
    /// Returns how many bytes [`State::write_image`] may need: at most 488,151 in a small store,
    /// and at most 1,913,559 in a large one.
    pub fn image_bound(&self) -> usize
        ensures room { result ≡ image_bound self.now }
        ensures most { result ≤ greatest_image Two self.now.tree.layout }
    {
        let scopes = self.tree.len() - 1;
        let (groups, tasks) = (self.groups.group_count(), self.groups.task_count());
        23 + 192 * scopes + 103 * groups + 136 * tasks
    }

    /// Writes the image of the state to the beginning of the buffer, and returns its length. Takes
    /// no memory.
    pub fn write_image(&self, out: &mut [u8]) -> usize
        requires few { self.now.count < 2 ^ 63 }
        requires room { image_bound self.now ≤ length out.old }
        ensures len { result ≡ length (image self.now) }
        ensures most { result ≤ image_bound self.now }
        ensures written { out.new ≡ put_at out.old 0 (image self.now) }
        ensures image { IsImage Two self.now.tree.layout (image self.now) self.now }
    {
        let end = put_head(out, 0, &self.head());
        let end = self.tree.write_rows(out, end);
        self.groups.write_rows(out, end)
    }

    /// Returns the state whose image these bytes are, and the version of the image. `self` is a new
    /// state of the store's layout, which is filled with the result. `BadImage` exactly if the
    /// bytes are the image of no state. Takes no memory.
    pub fn read_image(self, bytes: &[u8]) -> Result<(State<A>, ImageVersion), Fault>
        requires new { self ≡ (opened self.tree.layout).state }
        ensures read { IfOk result (λ x. IsImage x.1 self.tree.layout bytes.now x.0) }
        ensures none { IfErr result (λ _. (p : StateOf) → Rows self.tree.layout bytes.now p → ⊥) }
        ensures fault { IfErr result (λ fault. fault ≡ BadImage) }
    {
        let Some((head, rest)) = read_head(bytes, self.tree.layout()) else {
            // dropped by a call, because the drop at an exit costs the prover more
            drop(self);
            return Err(Fault::BadImage);
        };
        let (tree, groups) = read_parts(self.tree, self.groups, &head, rest)?;
        let state = State {
            count: head.count,
            tree,
            groups,
        };
        Ok((state, head.version))
    }

    /// Returns the head of the image, which comes before the rows.
    fn head(&self) -> ImageHead
        ensures head { result ≡ head_of Two self.now }
        ensures clock { self.now.tree.clock ≤ GREATEST_MOMENT }
    {
        ImageHead {
            version: ImageVersion::Two,
            clock: self.tree.clock().get(),
            count: self.count,
            scopes: (self.tree.len() - 1) as u16,
            groups: self.groups.group_count() as u16,
            tasks: self.groups.task_count() as u16,
        }
    }
}

/// Fills a new tree and new groups with the rows of a state, which are the bytes after a head.
/// `BadImage` if the bytes are the rows of no state.
fn read_parts<A: Allocator>(
    tree: Tree<A>,
    groups: Groups<A>,
    head: &ImageHead,
    bytes: &[u8],
) -> Result<(Tree<A>, Groups<A>), Fault>
    requires tree { tree ≡ new_tree tree.layout }
    requires groups { groups ≡ new_work tree.layout }
    ensures read { IfOk result (λ x. (image : List ℕ)
        → head_at tree.layout image ≡ Some (head.now, bytes.now)
        → image_at tree.layout image ≡ Some (head.now.version, whole head.now x.0 x.1)) }
    ensures none { IfErr result (λ _. (image : List ℕ)
        → head_at tree.layout image ≡ Some (head.now, bytes.now)
        → image_at tree.layout image ≡ None) }
    ensures fault { IfErr result (λ fault. fault ≡ BadImage) }
{
    let (tree, rest) = match tree.read_rows(head, bytes) {
        Ok(read) => read,
        Err(fault) => {
            drop(groups);
            return Err(fault);
        }
    };
    let (groups, rest) = match groups.read_rows(head, rest) {
        Ok(read) => read,
        Err(fault) => {
            drop(tree);
            return Err(fault);
        }
    };
    if !is_whole(&tree, &groups, rest) {
        drop(tree);
        drop(groups);
        return Err(Fault::BadImage);
    }
    Ok((tree, groups))
}

/// Returns whether these are the parts of one state, with nothing after them.
fn is_whole<A: Allocator>(tree: &Tree<A>, groups: &Groups<A>, rest: &[u8]) -> bool
    ensures { result ≡ (length rest.now == 0 && fits_between tree.now.scopes groups.now.groups) }
{
    rest.is_empty() && groups.fits(tree.rows())
}
