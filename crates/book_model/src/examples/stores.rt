//! What images and batches mean, and why some mean nothing.

ghost use Rattle.std.specs.Prelude.{[], ◌∷◌};
ghost use Rattle.run_model.specs.declared.faults.Fault.TheVariants.{BadImage, BadRecord, BadEvent};
ghost use Rattle.run_model.specs.declared.layouts.Layout.TheVariants.{Small};
ghost use Rattle.run_model.specs.Event.{Retry};
ghost use Rattle.run_model.specs.State.{formatted};
ghost use Rattle.run_model.specs.Step.{step};
ghost use Rattle.row_view.specs.declared.heads.ImageVersion.TheVariants.{One, Two};
ghost use Rattle.book_model.specs.Examples.Nights.{new_store};
ghost use Rattle.book_model.specs.Examples.Retries.{one_interrupted};
ghost use Rattle.book_model.specs.Meanings.{MeansIn, MeansNone};
ghost use Rattle.book_model.specs.Examples.Stores.{at_four, at_six, cut_record, empty_image};
ghost use Rattle.book_model.specs.Examples.Stores.{interrupted_image, rest_of_records};
ghost use Rattle.book_model.specs.Examples.Stores.{retry_record, three_records, two_records};
ghost use Rattle.book_model.specs.Examples.Stores.{with_len, with_parent, with_tag};

/// A store that was just formatted holds a state with no row but root, and no event. Once opened it
/// has one event. With a batch of three records it has four events, and with another one of two it
/// has six. Both versions are read.
pub fn two_flushes_mean_six_events()
    ensures formatted { MeansIn Two Small (empty_image 2 0) [] (formatted Small) }
    ensures opened { MeansIn Two Small (empty_image 2 1) [] new_store.state }
    ensures one { MeansIn Two Small (empty_image 2 1) (three_records ∷ []) at_four }
    ensures two { MeansIn Two Small (empty_image 2 1) (three_records ∷ two_records ∷ []) at_six }
    ensures older { MeansIn One Small (empty_image 1 1) (three_records ∷ []) at_four }
{}

/// Each of these means nothing: an unknown version, a record that spans two batches, a tag whose
/// body has another length, a length that doesn't fit the body of the tag, and a parent that
/// doesn't exist.
pub fn damaged_stores_mean_nothing()
    ensures version { MeansNone Small (empty_image 9 1) (three_records ∷ []) BadImage }
    ensures cut { MeansNone Small (empty_image 2 1) (cut_record ∷ rest_of_records ∷ []) BadRecord }
    ensures tag { MeansNone Small (empty_image 2 1) (with_tag 12 ∷ []) BadRecord }
    ensures len { MeansNone Small (empty_image 2 1) (with_len 6 ∷ []) BadRecord }
    ensures parent { MeansNone Small (empty_image 2 1) (with_parent 5 ∷ []) BadEvent }
{}

/// A retry may follow an image of version 2, but not one of version 1.
pub fn a_retry_stands_after_version_2()
    ensures two { MeansIn Two Small (interrupted_image Two) (retry_record ∷ [])
        (step one_interrupted.state (Retry 0)) }
    ensures one { MeansNone Small (interrupted_image One) (retry_record ∷ []) BadEvent }
{}
