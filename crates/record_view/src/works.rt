//! Laws of the rows of the work in an image: when bytes begin with the rows of given groups and
//! tasks.
//!
//! Each function has an empty body, and its clause is the law.

ghost use Rattle.std.specs.Prelude.{◌≡◌, List, ℕ, Some};
ghost use Rattle.run_model.specs.declared.layouts.Layout.{Layout};
ghost use Rattle.run_model.specs.State.{WorkState};
ghost use Rattle.row_view.specs.declared.heads.ImageHead.{ImageHead};
ghost use Rattle.row_view.specs.WorkRows.{AreWorkRows, work_at};

/// A work that keeps its rules is read back from its rows. If bytes are read as a work, they begin
/// with the rows of that work, and it keeps its rules.
pub fn the_rows_of_the_work_are_read()
    ensures again { (layout : Layout) (head : ImageHead) (bytes rest : List ℕ) (w : WorkState) →
        AreWorkRows layout head bytes w rest → work_at layout head bytes ≡ Some (w, rest) }
    ensures takes { (layout : Layout) (head : ImageHead) (bytes rest : List ℕ) (w : WorkState) →
        work_at layout head bytes ≡ Some (w, rest) → AreWorkRows layout head bytes w rest }
{}

/// After a given head, bytes begin with the rows of one work at most, and so they have one rest at
/// most.
pub fn bytes_begin_with_one_work()
    ensures { (layout : Layout) (head : ImageHead) (bytes : List ℕ) (w v : WorkState)
        (rest other : List ℕ) → AreWorkRows layout head bytes w rest →
        AreWorkRows layout head bytes v other → (w ≡ v) × (rest ≡ other) }
{}
