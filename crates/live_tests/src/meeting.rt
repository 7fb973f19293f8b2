//! Gates that hold threads up.

use crate::orch_base::Gate;
use std::sync::atomic::{AtomicU64, Ordering};
use std::thread;

/// How often a thread looks before it gives up.
const MOST: u64 = 1_000_000_000;

/// A gate for three passes. The first pass of number 2 and the first pass of number 3 each wait until the other has
/// begun. The second pass of number 3 waits until the second pass of number 2 has begun.
#[derive(Drop)]
pub struct Meeting {
    second: AtomicU64,
    third: AtomicU64,
    gave_up: AtomicU64,
}

fn wait_for(passes: &AtomicU64, least: u64, gave_up: &AtomicU64) {
    for _ in 0..MOST {
        if passes.load(Ordering::SeqCst) >= least {
            return;
        }
        thread::yield_now();
    }
    gave_up.store(1, Ordering::SeqCst);
}

impl Meeting {
    /// A gate that no pass has begun.
    pub fn new() -> Meeting {
        Meeting {
            second: AtomicU64::new(0),
            third: AtomicU64::new(0),
            gave_up: AtomicU64::new(0),
        }
    }

    /// Whether a thread waited in vain.
    pub fn gave_up(&self) -> bool {
        self.gave_up.load(Ordering::SeqCst) != 0
    }
}

impl Gate for Meeting {
    fn pass(&self, worker: u32) {
        if worker == 2 && self.second.fetch_add(1, Ordering::SeqCst) == 0 {
            wait_for(&self.third, 1, &self.gave_up);
        }
        if worker == 3 {
            let before = self.third.fetch_add(1, Ordering::SeqCst);
            if before < 2 {
                wait_for(&self.second, before + 1, &self.gave_up);
            }
        }
    }
}
