//! Hits of a scope itself: how one is made, compared and set.

ghost use Rattle.std.specs.Prelude.{◌≡◌, Option};
ghost use Rattle.std.specs.Option.{option_copied};
ghost use Rattle.run_model.specs.Scopes.{comes_before};
ghost use Rattle.run_model.specs.TreeChanges.{with_hit, hit_due, tick, new_hit};

use run_model::{Hit, Kind, Moment, Reason, Scope, Text};

/// Returns the hit by this event, at this moment and for this reason. Its cause is the given one,
/// or else the text of the reason.
pub fn new_hit(event: u64, moment: Moment, reason: Reason, cause: Option<Text>) -> Hit
    ensures { result ≡ new_hit event moment reason cause }
{
    let cause = match cause {
        Some(text) => text,
        None => Text::read(reason.text().as_bytes()).unwrap(),
    };
    Hit {
        event,
        moment,
        reason,
        cause,
    }
}

/// Returns the hit that a scope of this kind gets by this event; `None` unless it has a deadline at
/// or before the clock.
pub fn hit_due(event: u64, clock: Moment, kind: &Kind) -> Option<Hit>
    ensures { result ≡ hit_due event clock kind.now }
{
    match kind {
        Kind::Deadline(moment, cause) if moment.get() <= clock.get() => {
            let cause = cause.as_ref().map(|text| text.copy());
            Some(new_hit(event, *moment, Reason::DeadlineExceeded, cause))
        }
        _ => None,
    }
}

/// Gives a row the hit of its deadline by this event, if that deadline is at or before the clock
/// and the row has no hit. The hit's moment is the deadline.
pub fn expire(row: &mut Scope, event: u64, clock: Moment)
    ensures { row.new ≡ tick event clock row.old }
{
    if row.hit.is_none() {
        row.hit = hit_due(event, clock, &row.kind);
    }
}

/// Gives a row this hit, unless it has one.
pub fn end(row: &mut Scope, hit: Hit)
    ensures { row.new ≡ with_hit hit row.old }
{
    if row.hit.is_none() {
        row.hit = Some(hit);
    }
}

/// Returns whether the hit of scope `s` comes before that of scope `t`: by event, then by moment,
/// then by number.
pub fn is_before(s: u16, a: &Hit, t: u16, b: &Hit) -> bool
    ensures { result ≡ comes_before (s, a.now) (t, b.now) }
{
    let by_moment = a.moment.get().cmp(&b.moment.get());
    a.event
        .cmp(&b.event)
        .then(by_moment.then(s.cmp(&t)))
        .is_lt()
}
