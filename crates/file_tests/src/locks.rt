//! Who gets a lock.

use file_calls::{Lock, MemoryLocks};

/// An opening asks for a lock on a file, alone or shared, and gets it or not; or it is closed.
#[derive(Clone, Copy, Debug)]
enum Call {
    Alone(u64, u64, bool),
    Shared(u64, u64, bool),
    Close(u64),
}

const CALLS: [Call; 11] = [
    Call::Alone(7, 1, true),
    Call::Alone(7, 2, false),
    Call::Shared(7, 2, false),
    Call::Alone(9, 2, true),
    Call::Close(1),
    Call::Shared(7, 3, true),
    Call::Shared(7, 4, true),
    Call::Alone(7, 1, false),
    Call::Close(3),
    Call::Close(4),
    Call::Alone(7, 1, true),
];

#[test]
fn a_lock_is_had_as_its_row_says(rt: HostRuntime) {
    let mut locks = MemoryLocks::new(rt.alloc());
    for i in 0..CALLS.len() {
        let (file, holder, is_alone, is_free) = match CALLS[i] {
            Call::Alone(file, holder, is_free) => (file, holder, true, is_free),
            Call::Shared(file, holder, is_free) => (file, holder, false, is_free),
            Call::Close(holder) => {
                locks.give_back(holder);
                continue;
            }
        };
        let lock = Lock {
            file,
            holder,
            is_alone,
        };
        let is_so = matches!(locks.ask(lock), Ok(had) if had == is_free);
        assert!(rt; is_so, "call {i}");
    }
}
