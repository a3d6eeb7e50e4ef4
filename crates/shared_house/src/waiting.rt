//! Waiting for a lock.

use std::hint::spin_loop;
use std::sync::{Mutex, MutexGuard, Wait};

// So often a thread looks, which takes some ten microseconds. A call holds a lock for less, and to put a thread to sleep and wake
// it takes longer.
const LOOKS: u32 = 200;

/// The lock, once it is free. A thread looks for a while before it sleeps.
pub fn take_lock<'a, T, R: Wait>(rt: &R, lock: &'a Mutex<T>) -> MutexGuard<'a, T> {
    for _ in 0..LOOKS {
        if let Some(guard) = lock.try_lock() {
            return guard;
        }
        spin_loop();
    }
    lock.lock(rt)
}
