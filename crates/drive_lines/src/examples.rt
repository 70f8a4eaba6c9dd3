//! Examples of the definitions: the lines of the sessions on the page about driven nights.
//!
//! Each function has an empty body, and its clause is the example. It is computed from the
//! definitions only, without any of the code that reads or appends a line.
#![tactic(auto, unfolding(crate::proofs::OnLiterals::lines_on_literals))]

ghost use Rattle.std.specs.Prelude.{◌≡◌, ◌++◌, codes};
ghost use Rattle.drive_lines.specs.Examples.{accepted, answered, asked, begun, begun_again};
ghost use Rattle.drive_lines.specs.Examples.{begun_more, canceled, failed, gone, grown, planned};
ghost use Rattle.drive_lines.specs.Examples.{report_lines, stopped};
ghost use Rattle.drive_lines.specs.Orders.{order_lines};

/// A plan with names.
pub fn a_plan_has_names()
    ensures reports { report_lines planned ≡ codes "pool 1\ngroup 0 stop dumps\n"
        ++ codes "command 0 0 1 30 2 600 users\ntake 0 1\n"
        ++ codes "command 0 0 0 0 1 0 orders\ntake 0 1\n" }
    ensures orders { order_lines accepted ≡ codes "plan 2\nnight 1\n\n" }
{}

/// A failure, and the beginning of a try.
pub fn a_try_fails_and_another_one_begins()
    ensures reports { report_lines failed ≡ codes "ended 0 error exit 1\nnow 1005\n" }
    ensures orders { order_lines begun
        ≡ codes "begin 1 1 dumps orders 0\nlater 1035\ndurable\n\n" }
{}

/// A cancel, and what has to stop.
pub fn a_canceled_try_has_to_stop()
    ensures reports { report_lines canceled ≡ codes "now 1040\ncancel 1 by hand\n" }
    ensures orders { order_lines stopped ≡ codes "stop 1 by hand\ndurable\n\n" }
{}

/// A try whose end nobody knows.
pub fn a_try_is_gone()
    ensures reports { report_lines gone ≡ codes "gone 1\nnow 1042\n" }
    ensures orders { order_lines begun_again ≡ codes "begin 0 2 dumps users 1\ndurable\n\n" }
{}

/// A failure, and questions about it.
pub fn errors_are_asked_for()
    ensures reports { report_lines asked
        ≡ codes "ended 0 error exit 1\nnow 1005\nask 0\nask 1\nfirst 0\n" }
    ensures orders { order_lines answered ≡ codes "begin 1 1 dumps orders 0\nlater 1035\n"
        ++ codes "error 0 exit 1\nfirst 0 exit 1\ndurable\n\n" }
{}

/// The plan gets a pool, and a command that takes all of it.
pub fn a_plan_gets_a_pool()
    ensures reports { report_lines grown
        ≡ codes "pool 2\ncommand 0 0 0 0 1 0 files\ntake 1 2\nnow 1006\n" }
    ensures orders { order_lines begun_more
        ≡ codes "begin 2 2 dumps files 0\nlater 1035\ndurable\n\n" }
{}
