//! A [`LivesDraft`] holds the tries of an earlier session that still run, or whose ends aren't
//! recorded, while their lines are read.

ghost use Rattle.std.specs.Prelude.{◌≡◌, ◌==◌, ◌&&◌, [], IfOk, List};
ghost use Rattle.std.specs.List.{list_any};
ghost use Rattle.drive_lines.specs.declared.reports.Report.{Report as ReportOf};
ghost use Rattle.drive_parts.specs.Lives.{AddsTry, AreTries, same_try};

use drive_lines::fields::TryName;
use drive_lines::reports::Report;
use run_model::is_spelled;
use std::alloc::{AllocError, Global};

/// The tries that were read so far, in order.
#[derive(Drop)]
pub struct LivesDraft {
    pub tries: Vec<TryName>,
}

impl LivesDraft {
    /// No tries.
    pub fn new(alloc: Global) -> LivesDraft
        ensures { AreTries [] result }
    {
        LivesDraft {
            tries: Vec::new(alloc),
        }
    }

    /// Returns the draft with one more line, or `None` if the line can't come next: it names no
    /// try, or one that was named before.
    pub fn add(self, report: Report) -> Result<Option<LivesDraft>, AllocError>
        ensures { IfOk result (λ draft. (reports : List ReportOf) → AreTries reports self
            → AddsTry reports report draft) }
    {
        let LivesDraft { mut tries } = self;
        let Report::Lives(living) = report else {
            return Ok(None);
        };
        if is_listed(tries.as_slice(), &living) {
            return Ok(None);
        }
        tries.push(living)?;
        Ok(Some(LivesDraft { tries }))
    }
}

/// Returns whether one of these tries is this one.
fn is_listed(tries: &[TryName], living: &TryName) -> bool
    ensures { result ≡ list_any (λ other. same_try other living.now) tries.now }
{
    tries.iter().any(|other| is_same(other, living))
}

/// Returns whether two tries are the same.
fn is_same(a: &TryName, b: &TryName) -> bool
    ensures { result ≡ same_try a.now b.now }
{
    is_spelled(a.group.as_bytes(), b.group.as_bytes())
        && is_spelled(a.key.as_bytes(), b.key.as_bytes())
        && a.number == b.number
}
