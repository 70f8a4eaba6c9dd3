//! Nights with deadlines, values and detached scopes, and the order in which lines are refused.

use crate::runs::{Night, assert_printed};

/// Two deadlines of one moment: the parent's passes first.
const PARENT_EARLIER: Night = (
    b"derive p root deadline 100 p\n\
     derive c p deadline 100 c\n\
     advance 200\n\
     scope p\n\
     scope c\n",
    b"scope 1\n\
     scope 2\n\
     ok\n\
     done; deadline 100; err context deadline exceeded; cause p\n\
     done; deadline 100; err context deadline exceeded; cause p\n\
     acked 4\n",
);

/// The child's deadline passes first, and it keeps its own cause.
const CHILD_EARLIER: Night = (
    b"derive p root deadline 150 p\n\
     derive c p deadline 100 c\n\
     advance 200\n\
     scope p\n\
     scope c\n",
    b"scope 1\n\
     scope 2\n\
     ok\n\
     done; deadline 150; err context deadline exceeded; cause p\n\
     done; deadline 100; err context deadline exceeded; cause c\n\
     acked 4\n",
);

/// A detached scope isn't done with its parent, and values are found through it.
const DETACHED_PART: Night = (
    b"derive v root value region eu\n\
     derive x v cause\n\
     derive d x detached\n\
     derive k d cancel\n\
     cancel x stop\n\
     scope x\n\
     scope d\n\
     scope k\n\
     value k region\n",
    b"scope 1\n\
     scope 2\n\
     scope 3\n\
     scope 4\n\
     ok\n\
     done; deadline none; err context canceled; cause stop\n\
     live; deadline none\n\
     live; deadline none\n\
     value eu\n\
     acked 6\n",
);

/// A timeout of 0 and a deadline at the clock are exceeded at once.
const WRITTEN_MOMENTS: Night = (
    b"advance 2024-01-01T02:00:00Z\n\
     derive t root timeout 0\n\
     derive u root deadline 2024-01-01T03:00:00+01:00\n\
     scope t\n\
     scope u\n\
     advance 1704074400\n",
    b"ok\n\
     scope 1\n\
     scope 2\n\
     done; deadline 1704074400; err context deadline exceeded; cause context deadline exceeded\n\
     done; deadline 1704074400; err context deadline exceeded; cause context deadline exceeded\n\
     refused 17 ClockNotForward\n\
     acked 4\n",
);

/// A key that holds nothing, and a timeout past the greatest moment.
const MISSING_VALUES: Night = (
    b"derive v root value k x\n\
     value v k\n\
     value v j\n\
     value root k\n\
     derive t root timeout 253000000001\n\
     scope v\n",
    b"scope 1\n\
     value x\n\
     refused 23 NoValue\n\
     refused 23 NoValue\n\
     refused 18 MomentOutOfRange\n\
     live; deadline none\n\
     acked 2\n",
);

/// The night of README.
const README_NIGHT: Night = (
    b"derive night root value region eu\n\
     derive backup night cause\n\
     derive copy backup deadline 3600 copy took too long\n\
     derive report backup detached\n\
     derive mail report cancel\n\
     advance 3600\n\
     cancel backup disk full\n\
     scope backup\n\
     scope copy\n\
     scope mail\n\
     value mail region\n\
     cancel copy late\n\
     group disks report\n\
     limit disks 1\n\
     go disks copy a\n\
     go disks copy b\n\
     start\n\
     finish 0 error no room\n\
     scope disks\n\
     start\n\
     finish 1 ok\n\
     wait disks\n\
     tally\n",
    b"scope 1\n\
     scope 2\n\
     scope 3\n\
     scope 4\n\
     scope 5\n\
     ok\n\
     ok\n\
     done; deadline none; err context canceled; cause disk full\n\
     done; deadline 3600; err context deadline exceeded; cause copy took too long\n\
     live; deadline none\n\
     value eu\n\
     refused 11 CauseNotTaken\n\
     group 0 scope 6\n\
     ok\n\
     task 0 ready\n\
     task 1 held\n\
     start 0 copy a\n\
     ok\n\
     done; deadline none; err context canceled; cause no room\n\
     start 1 copy b\n\
     ok\n\
     wait error no room\n\
     tally copy total 2; success 1; failure 1; interrupted 0\n\
     acked 17\n",
);

/// A bad form first, then names, texts, moments out of range, and what the state refuses.
const ORDER_OF_REFUSALS: Night = (
    b"advance 9999-12-31T23:59:59Z\n\
     advance 2024-01-01T24:00:00Z\n\
     derive A root deadline 253000000001\n\
     derive a nowhere deadline 253000000001 \x7f\n\
     derive a nowhere deadline 253000000001 x\n\
     derive a nowhere timeout 999999999999\n\
     derive root root timeout 999999999999\n\
     advance 0\n\
     value nowhere k\n\
     value root K\n",
    b"refused 18 MomentOutOfRange\n\
     bad line\n\
     refused 5 BadName\n\
     refused 6 BadText\n\
     refused 18 MomentOutOfRange\n\
     refused 1 NoSuchScope\n\
     refused 4 NameTaken\n\
     refused 17 ClockNotForward\n\
     refused 1 NoSuchScope\n\
     refused 5 BadName\n\
     acked 1\n",
);

/// A detached scope and what stands below it have no part in what ends the scopes above; of a
/// scope that was canceled the deadline stays.
const DETACHED_DEADLINE: Night = (
    b"derive p root deadline 100 p\n\
     derive c p deadline 50 c\n\
     derive d c detached\n\
     derive e d deadline 70 e\n\
     cancel c\n\
     advance 100\n\
     scope p\n\
     scope c\n\
     scope d\n\
     scope e\n",
    b"scope 1\n\
     scope 2\n\
     scope 3\n\
     scope 4\n\
     ok\n\
     ok\n\
     done; deadline 100; err context deadline exceeded; cause p\n\
     done; deadline 50; err context canceled; cause context canceled\n\
     live; deadline none\n\
     done; deadline 70; err context deadline exceeded; cause e\n\
     acked 7\n",
);

/// What can't be canceled, what takes no cause, and what is done; the deadline of a scope is the
/// least of its chain.
const REFUSED_CANCELS: Night = (
    b"derive v root value k x\n\
     derive d root detached\n\
     group g root\n\
     derive c root cancel\n\
     derive e root deadline 100\n\
     derive f e deadline 200 f\n\
     scope f\n\
     cancel nowhere x\n\
     cancel root\n\
     cancel v x\n\
     cancel d\n\
     cancel g\n\
     cancel c x\n\
     cancel e x\n\
     cancel c\n\
     cancel c x\n\
     cancel c\n\
     scope c\n",
    b"scope 1\n\
     scope 2\n\
     group 0 scope 3\n\
     scope 4\n\
     scope 5\n\
     scope 6\n\
     live; deadline 100\n\
     refused 1 NoSuchScope\n\
     refused 10 NotCancellable\n\
     refused 10 NotCancellable\n\
     refused 10 NotCancellable\n\
     refused 10 NotCancellable\n\
     refused 11 CauseNotTaken\n\
     refused 11 CauseNotTaken\n\
     ok\n\
     refused 11 CauseNotTaken\n\
     refused 12 AlreadyDone\n\
     done; deadline none; err context canceled; cause context canceled\n\
     acked 8\n",
);

static NIGHTS: [Night; 9] = [
    PARENT_EARLIER,
    CHILD_EARLIER,
    DETACHED_PART,
    WRITTEN_MOMENTS,
    MISSING_VALUES,
    README_NIGHT,
    ORDER_OF_REFUSALS,
    DETACHED_DEADLINE,
    REFUSED_CANCELS,
];

#[test]
fn nights_with_deadlines_and_values_are_printed(rt: HostRuntime) {
    assert_printed(&rt, rt.alloc(), &NIGHTS);
}
