//! Words of the command line that are mistakes, and what is told of each.

use crate::words::cases::{Case, Reported};

/// Words that ask for nothing.
pub static MISTAKES: [Case; 26] = [
    (&[], Reported::Mistake("Usage: night <COMMAND>")),
    (&[""], Reported::Mistake("unrecognized subcommand ''")),
    (
        &["dem"],
        Reported::Mistake("a similar subcommand exists: 'demo'"),
    ),
    (
        &["format"],
        Reported::Mistake("required arguments were not provided"),
    ),
    (
        &["script", "--"],
        Reported::Mistake("required arguments were not provided"),
    ),
    (
        &["drive"],
        Reported::Mistake("required arguments were not provided"),
    ),
    (
        &["script", "a.disk", "b.disk"],
        Reported::Mistake("unexpected argument 'b.disk' found"),
    ),
    (
        &["work", "a.disk"],
        Reported::Mistake("unrecognized subcommand 'work'"),
    ),
    (
        &["crew"],
        Reported::Mistake("required arguments were not provided"),
    ),
    (
        &["crew", "--workers", "2"],
        Reported::Mistake("required arguments were not provided"),
    ),
    (
        &["crew", "a.disk", "--workers"],
        Reported::Mistake("a value is required for '--workers <N>'"),
    ),
    (
        &["crew", "a", "--workers=1", "--workers=2"],
        Reported::Mistake("cannot be used multiple times"),
    ),
    (
        &["inspect", "-a"],
        Reported::Mistake("unexpected argument '-a' found"),
    ),
    (
        &["migrate", "a.disk"],
        Reported::Mistake("required arguments were not provided"),
    ),
    (
        &["migrate", "--", "a.disk"],
        Reported::Mistake("required arguments were not provided"),
    ),
    (
        &["migrate", "a.disk", "b.disk", "c.disk"],
        Reported::Mistake("unexpected argument 'c.disk' found"),
    ),
    (
        &["renew", "--in-place"],
        Reported::Mistake("required arguments were not provided"),
    ),
    (
        &["inspect", "a.disk", "--phase"],
        Reported::Mistake("a value is required for '--phase <PHASE>'"),
    ),
    (
        &["inspect", "--group", "--tasks", "a"],
        Reported::Mistake("a value is required for '--group <GROUP>'"),
    ),
    (
        &["inspect", "--phase", "held"],
        Reported::Mistake("required arguments were not provided"),
    ),
    (
        &["inspect", "--phase=held", "a", "--phase=held"],
        Reported::Mistake("cannot be used multiple times"),
    ),
    (
        &["renew", "a.disk", "b.disk", "c.disk"],
        Reported::Mistake("unexpected argument 'c.disk' found"),
    ),
    (
        &["--demo"],
        Reported::Mistake("unexpected argument '--demo' found"),
    ),
    (
        &["demo", "a.disk"],
        Reported::Mistake("unexpected argument 'a.disk' found"),
    ),
    (
        &["demo", ""],
        Reported::Mistake("unexpected argument '' found"),
    ),
    (
        &["demo", "--version"],
        Reported::Mistake("unexpected argument '--version' found"),
    ),
];

/// Flags that stand twice, have a value, or stand where their command doesn't take them.
pub static STRAY_FLAGS: [Case; 25] = [
    (
        &["demo", "--strict", "--strict"],
        Reported::Mistake("'--strict' cannot be used multiple times"),
    ),
    (
        &["format", "--new", "a", "--new"],
        Reported::Mistake("'--new' cannot be used multiple times"),
    ),
    (
        &["script", "--strict", "--strict", "a"],
        Reported::Mistake("'--strict' cannot be used multiple times"),
    ),
    (
        &["crew", "--known", "a", "--known"],
        Reported::Mistake("'--known' cannot be used multiple times"),
    ),
    (
        &["script", "--now", "a", "--now"],
        Reported::Mistake("'--now' cannot be used multiple times"),
    ),
    (
        &["renew", "--in-place", "a", "--in-place"],
        Reported::Mistake("'--in-place' cannot be used multiple times"),
    ),
    (
        &["demo", "--now"],
        Reported::Mistake("unexpected argument '--now' found"),
    ),
    (
        &["migrate", "--in-place", "a"],
        Reported::Mistake("unexpected argument '--in-place' found"),
    ),
    (
        &["crew", "a", "--phase", "held"],
        Reported::Mistake("unexpected argument '--phase' found"),
    ),
    (
        &["inspect", "--tree=a", "a"],
        Reported::Mistake("unexpected value 'a' for '--tree'"),
    ),
    (
        &["demo", "--strict=true"],
        Reported::Mistake("unexpected value 'true' for '--strict'"),
    ),
    (
        &["format", "--new"],
        Reported::Mistake("required arguments were not provided"),
    ),
    (
        &["demo", "--new"],
        Reported::Mistake("unexpected argument '--new' found"),
    ),
    (
        &["demo", "--known"],
        Reported::Mistake("unexpected argument '--known' found"),
    ),
    (
        &["format", "--strict", "a"],
        Reported::Mistake("unexpected argument '--strict' found"),
    ),
    (
        &["script", "a", "--new"],
        Reported::Mistake("unexpected argument '--new' found"),
    ),
    (
        &["drive", "a", "--strict"],
        Reported::Mistake("unexpected argument '--strict' found"),
    ),
    (
        &["inspect", "--new", "a"],
        Reported::Mistake("unexpected argument '--new' found"),
    ),
    (
        &["inspect", "a", "--strict"],
        Reported::Mistake("unexpected argument '--strict' found"),
    ),
    (
        &["inspect", "--known", "a"],
        Reported::Mistake("unexpected argument '--known' found"),
    ),
    (
        &["crew", "a", "--strict"],
        Reported::Mistake("unexpected argument '--strict' found"),
    ),
    (
        &["crew", "a", "--new"],
        Reported::Mistake("unexpected argument '--new' found"),
    ),
    (
        &["migrate", "--new", "a", "b", "--new"],
        Reported::Mistake("'--new' cannot be used multiple times"),
    ),
    (
        &["renew", "a", "--new", "b", "--new"],
        Reported::Mistake("'--new' cannot be used multiple times"),
    ),
    (
        &["--strict", "demo"],
        Reported::Mistake("unexpected argument '--strict' found"),
    ),
];
