//! Lines of a driven night, as the page about them shows them.

use crate::asserts::holds;
use arrayvec::ArrayVec;
use drive_lines::fields::TryName;
use drive_lines::orders::Order;
use drive_lines::reports::{Report, read_report};
use plan_lines::answers::AnswerLine;
use run_model::{Fault, Name, Text};
use std::rt::HostRuntime;

/// A line of an executor, and whether it is read.
static REPORTS: &[(&[u8], bool)] = &[
    (b"pool 1", true),
    (b"group 0 stop dumps", true),
    (b"group 0 stop", false),
    (b"group 0 stop Dumps", false),
    (b"group 0 stop dumps x", false),
    (b"group 0 stop 7", true),
    (b"command 0 0 1 30 2 600 users", true),
    (b"command 0 0 1 30 2 600", false),
    (b"until 21600 at 6:00", true),
    (b"until 21600", false),
    (b"until 21600 ", false),
    (b"all 21600 at 6:00", true),
    (b"next", true),
    (b"next ", false),
    (b"lives dumps users 0", true),
    (b"lives dumps users 00", false),
    (b"lives dumps users 65536", false),
    (b"lives dumps users", false),
    (b"ended 0 ok", true),
    (b"ended 0 ok again", false),
    (b"ended 0 error exit 1", true),
    (b"ended 0 error", false),
    (b"ended 00 ok", false),
    (b"ended  0 ok", false),
    (b"ended 999999999999 ok", true),
    (b"ended 1000000000000 ok", false),
    (b"gone 1", true),
    (b"gone one", false),
    (b"cancel 1 by hand", true),
    (b"cancel 1", false),
    (b"done 0 by hand", true),
    (b"done 0", false),
    (b"hurry", true),
    (b"ask 1", true),
    (b"ask", false),
    (b"ask 01", false),
    (b"first 0", true),
    (b"first 0 x", false),
    (b"error 0 x", false),
    (b"standings", true),
    (b"now 1042", true),
    (b"busy 0", false),
    (b"ok 0", false),
    (b"failed 0 1005 1", false),
    (b"begin 0 0 dumps users 0", false),
    (b"", false),
];

#[test]
fn each_line_of_an_executor_is_read_or_bad(rt: HostRuntime) {
    for (row, (line, is_read)) in REPORTS.iter().enumerate() {
        holds(&rt, read_report(line).is_some() == *is_read, "report", row);
    }
}

/// An order, with its names and texts as bytes.
#[derive(Clone, Copy)]
enum Row {
    Begin(u64, u16, &'static [u8], u16),
    Rebound(u64, u16, &'static [u8], u16),
    Stop(u16, &'static [u8]),
    Error(u64, &'static [u8]),
    First(u64, &'static [u8]),
    Answer(AnswerLine),
    Night(u64),
    Durable,
    Over,
    Full,
    Fault(Fault),
}

/// An order, and its line.
static ORDERS: &[(Row, &[u8])] = &[
    (Row::Begin(7, 3, b"users", 0), b"begin 7 3 dumps users 0\n"),
    (
        Row::Rebound(1, 65_535, b"12345678901234567890123456789012", 65_535),
        b"rebound 1 65535 dumps 12345678901234567890123456789012 65535\n",
    ),
    (Row::Stop(3, b"by  hand "), b"stop 3 by  hand \n"),
    (Row::Error(12, b"exit 1"), b"error 12 exit 1\n"),
    (Row::First(0, b"exit  1"), b"first 0 exit  1\n"),
    (Row::Answer(AnswerLine::Plan(2)), b"plan 2\n"),
    (Row::Answer(AnswerLine::Later(1035)), b"later 1035\n"),
    (Row::Answer(AnswerLine::End), b"\n"),
    (Row::Night(12), b"night 12\n"),
    (Row::Durable, b"durable\n"),
    (Row::Over, b"over\n"),
    (Row::Full, b"full\n"),
    (Row::Fault(Fault::DiskFailed), b"fault 2 DiskFailed\n"),
];

/// The order of a row, whose try is one of the group `dumps`.
fn order_of(row: Row) -> Option<Order> {
    Some(match row {
        Row::Begin(command, task, key, number) => {
            Order::Begin(command, task, try_of(key, number)?)
        }
        Row::Rebound(command, task, key, number) => {
            Order::Rebound(command, task, try_of(key, number)?)
        }
        Row::Stop(task, why) => Order::Stop(task, Text::read(why)?),
        Row::Error(command, text) => Order::Error(command, Text::read(text)?),
        Row::First(group, text) => Order::First(group, Text::read(text)?),
        Row::Answer(line) => Order::Answer(line),
        Row::Night(night) => Order::Night(night),
        Row::Durable => Order::Durable,
        Row::Over => Order::Over,
        Row::Full => Order::Full,
        Row::Fault(fault) => Order::Fault(fault),
    })
}

fn try_of(key: &[u8], number: u16) -> Option<TryName> {
    Some(TryName {
        group: Name::read(b"dumps")?,
        key: Name::read(key)?,
        number,
    })
}

#[test]
fn each_order_is_spelled_as_its_line(rt: HostRuntime) {
    for (row, (given, line)) in ORDERS.iter().enumerate() {
        let mut out: ArrayVec<u8, 131> = ArrayVec::new();
        if let Some(order) = order_of(*given) {
            order.append(&mut out);
        }
        holds(&rt, out.as_slice() == *line, "order", row);
    }
}
