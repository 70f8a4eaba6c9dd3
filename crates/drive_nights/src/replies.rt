//! Whether the steps of an opening were taken, by the replies to them.

ghost use Rattle.std.specs.List.{list_all};
ghost use Rattle.std.specs.Prelude.{◌≡◌};
ghost use Rattle.drive_nights.specs.Effects.{is_taken};

use run_model::Reply;

/// Returns whether no step was refused, by the replies to all of them. Whoever opens a night, adds
/// a group to it or marks its end asks this: only then is all of that there.
pub fn are_taken(replies: &[Reply]) -> bool
    ensures { result ≡ list_all is_taken replies.now }
{
    replies.iter().all(|reply| is_taken(reply))
}

/// Returns whether a step was taken.
fn is_taken(reply: &Reply) -> bool
    ensures { result ≡ is_taken reply.now }
{
    !matches!(reply, Reply::Refused(_))
}
