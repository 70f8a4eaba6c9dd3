//! The laws of images. Each function has an empty body, and its clauses are the law.

ghost use Rattle.std.specs.Prelude.{◌≡◌, ◌≤◌, ◌∷◌, ◌++◌, List, ℕ, Some, IsTrue, length};
ghost use Rattle.std.specs.Option.{option_map};
ghost use Rattle.run_model.specs.declared.layouts.Layout.{Layout};
ghost use Rattle.run_model.specs.declared.layouts.Layout.TheVariants.{Small, Large};
ghost use Rattle.run_model.specs.declared.scopes.Scope.{Scope};
ghost use Rattle.run_model.specs.declared.groups.Group.{Group};
ghost use Rattle.run_model.specs.declared.tasks.Task.{Task};
ghost use Rattle.run_model.specs.Allowed.{run};
ghost use Rattle.run_model.specs.State.{State, formatted};
ghost use Rattle.row_view.specs.declared.heads.ImageHead.{ImageHead};
ghost use Rattle.row_view.specs.declared.heads.ImageVersion.{ImageVersion};
ghost use Rattle.row_view.specs.declared.heads.ImageVersion.TheVariants.{One, Two};
ghost use Rattle.row_view.specs.Image.{image, image_in, greatest_image, head_bytes};
ghost use Rattle.row_view.specs.Image.{scope_bytes, group_bytes, task_bytes, is_kept_head};
ghost use Rattle.row_view.specs.Image.{is_kept_scope, is_kept_group, is_kept_task};
ghost use Rattle.record_view.specs.ImageExamples.{one_cancelled, one_cancelled_part, one_retried};
ghost use Rattle.record_view.specs.ImageExamples.{retried_head, retried_group, retried_tasks};
ghost use Rattle.row_view.specs.Keeping.{IsImage};
ghost use Rattle.row_view.specs.RowReading.{head_at, scope_at, group_row_at, task_at};

/// Two images of 57 bytes, one in each version, and an image with a retry, byte by byte.
pub fn an_image_is_its_head_and_rows()
    ensures two { option_map image (run (formatted Small) one_cancelled)
        ≡ Some (2 ∷ one_cancelled_part) }
    ensures one { option_map (image_in One) (run (formatted Small) one_cancelled)
        ≡ Some (1 ∷ one_cancelled_part) }
    ensures length { length (2 ∷ one_cancelled_part) ≡ 57 }
    ensures retried { option_map image (run (formatted Small) one_retried)
        ≡ Some (retried_head ++ retried_group ++ retried_tasks) }
{}

/// The sizes of the greatest images.
pub fn the_greatest_images_have_these_sizes()
    ensures one { greatest_image One Small ≡ 484055 }
    ensures two { greatest_image Two Small ≡ 488151 }
    ensures large { greatest_image Two Large ≡ 1913559 }
{}

/// A state has at most one image in each version, and no image is longer than the greatest one.
pub fn a_state_has_one_image()
    ensures one { (version : ImageVersion) (layout : Layout) (bytes other : List ℕ) (p : State) →
        IsImage version layout bytes p → IsImage version layout other p → bytes ≡ other }
    ensures most { (version : ImageVersion) (layout : Layout) (bytes : List ℕ) (p : State) →
        IsImage version layout bytes p → length bytes ≤ greatest_image version layout }
{}

/// In a given layout, an image belongs to one state and one version only.
pub fn an_image_has_one_state()
    ensures { (version other : ImageVersion) (layout : Layout) (bytes : List ℕ) (p q : State) →
        IsImage version layout bytes p → IsImage other layout bytes q →
        (version ≡ other) × (p ≡ q) }
{}

/// Rows that were written are read back correctly, whatever comes after them.
pub fn written_rows_are_read()
    ensures head { (layout : Layout) (head : ImageHead) (rest : List ℕ) →
        IsTrue (is_kept_head layout head) →
        head_at layout (head_bytes head ++ rest) ≡ Some (head, rest) }
    ensures scope { (row : Scope) (rest : List ℕ) → IsTrue (is_kept_scope row) →
        scope_at (scope_bytes row ++ rest) ≡ Some (row, rest) }
    ensures group { (row : Group) (rest : List ℕ) → IsTrue (is_kept_group row) →
        group_row_at (group_bytes row ++ rest) ≡ Some (row, rest) }
    ensures task { (version : ImageVersion) (row : Task) (rest : List ℕ) →
        IsTrue (is_kept_task version row) →
        task_at version (task_bytes version row ++ rest) ≡ Some (row, rest) }
{}

/// If bytes are read as a row and a rest, they are that row as it would be written, followed by the
/// rest.
pub fn read_rows_are_written()
    ensures head { (layout : Layout) (head : ImageHead) (bytes rest : List ℕ) →
        head_at layout bytes ≡ Some (head, rest) →
        IsTrue (is_kept_head layout head) × (bytes ≡ head_bytes head ++ rest) }
    ensures scope { (row : Scope) (bytes rest : List ℕ) → scope_at bytes ≡ Some (row, rest) →
        IsTrue (is_kept_scope row) × (bytes ≡ scope_bytes row ++ rest) }
    ensures group { (row : Group) (bytes rest : List ℕ) → group_row_at bytes ≡ Some (row, rest) →
        IsTrue (is_kept_group row) × (bytes ≡ group_bytes row ++ rest) }
    ensures task { (version : ImageVersion) (row : Task) (bytes rest : List ℕ) →
        task_at version bytes ≡ Some (row, rest) →
        IsTrue (is_kept_task version row) × (bytes ≡ task_bytes version row ++ rest) }
{}
