//! What threads tell each other, and the gate that pauses a call.

use shared_house::{Gate, Waypoint};
use std::sync::atomic::{AtomicBool, Ordering};
use std::thread;

/// How often a flag is looked at before one that waits for it gives up.
const MOST_TURNS: u32 = 1_000_000_000;

/// What is done so far.
#[derive(Drop)]
pub struct Flags {
    /// The lines before all others are answered.
    pub before: AtomicBool,
    /// The call that is paused is at its waypoint.
    pub at_waypoint: AtomicBool,
    /// The lines that it is paused for are answered.
    pub other: AtomicBool,
    /// The call was at its waypoint until then.
    pub was_paused: AtomicBool,
    /// The call that was paused is answered.
    pub paused: AtomicBool,
    /// The lines behind all others are answered.
    pub behind: AtomicBool,
}

impl Flags {
    pub fn new() -> Flags {
        Flags {
            before: AtomicBool::new(false),
            at_waypoint: AtomicBool::new(false),
            other: AtomicBool::new(false),
            was_paused: AtomicBool::new(false),
            paused: AtomicBool::new(false),
            behind: AtomicBool::new(false),
        }
    }
}

/// Waits until the flag is set. False where it was not set for too many turns.
pub fn wait_for(flag: &AtomicBool) -> bool {
    for _turn in 0..MOST_TURNS {
        if flag.load(Ordering::SeqCst) {
            return true;
        }
        thread::yield_now();
    }
    false
}

/// Pauses the calls of a pass at a waypoint until the other lines are answered.
#[derive(Drop)]
pub struct Pausing<'a> {
    pub pass: usize,
    pub waypoint: Waypoint,
    pub flags: &'a Flags,
}

impl Gate for Pausing<'_> {
    fn at(&self, pass: usize, waypoint: Waypoint) {
        if pass == self.pass && waypoint == self.waypoint {
            self.flags.at_waypoint.store(true, Ordering::SeqCst);
            let is_answered = wait_for(&self.flags.other);
            self.flags.was_paused.store(is_answered, Ordering::SeqCst);
        }
    }
}
