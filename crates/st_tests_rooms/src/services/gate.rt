//! A gate at which each of some readers waits until all of them have read.

use st_crew::{Gate, Point};
use std::sync::Wait;
use std::sync::atomic::{AtomicU32, Ordering};
use std::thread;

const MOST_LOADS: u32 = 100_000_000;

/// Holds each read until so many were seen, for so many loads at the most.
#[derive(Drop)]
pub struct Meeting {
    all: u32,
    come: AtomicU32,
    missed: AtomicU32,
}

impl Meeting {
    /// A gate for so many readers.
    pub fn of(all: u32) -> Meeting {
        Meeting {
            all,
            come: AtomicU32::new(0),
            missed: AtomicU32::new(0),
        }
    }

    /// Whether as many as were waited for have come, and none waited in vain.
    pub fn was_kept(&self) -> bool {
        self.come.load(Ordering::SeqCst) == self.all && self.missed.load(Ordering::SeqCst) == 0
    }
}

impl Gate for Meeting {
    fn at<R: Wait>(&self, _rt: &R, point: Point) {
        let Point::AfterRead { .. } = point else {
            return;
        };
        self.come.fetch_add(1, Ordering::SeqCst);
        for _ in 0..MOST_LOADS {
            if self.come.load(Ordering::SeqCst) >= self.all {
                return;
            }
            thread::yield_now();
        }
        self.missed.fetch_add(1, Ordering::SeqCst);
    }
}

/// Holds the first read until a judge has come, and each judge until a second read was made, for so many loads at the most.
#[derive(Drop)]
pub struct HeldJudge {
    reads: AtomicU32,
    judges: AtomicU32,
    missed: AtomicU32,
}

impl HeldJudge {
    /// A gate that has seen nothing.
    pub fn new() -> HeldJudge {
        HeldJudge {
            reads: AtomicU32::new(0),
            judges: AtomicU32::new(0),
            missed: AtomicU32::new(0),
        }
    }

    /// Whether a judge has come, and none waited in vain.
    pub fn was_kept(&self) -> bool {
        self.judges.load(Ordering::SeqCst) > 0 && self.missed.load(Ordering::SeqCst) == 0
    }

    /// Waits until so many have come.
    fn wait(&self, come: &AtomicU32, many: u32) {
        for _ in 0..MOST_LOADS {
            if come.load(Ordering::SeqCst) >= many {
                return;
            }
            thread::yield_now();
        }
        self.missed.fetch_add(1, Ordering::SeqCst);
    }
}

impl Gate for HeldJudge {
    fn at<R: Wait>(&self, _rt: &R, point: Point) {
        match point {
            Point::BeforeJudge { .. } => {
                self.judges.fetch_add(1, Ordering::SeqCst);
                self.wait(&self.reads, 2);
            }
            Point::AfterRead { .. } => {
                if self.reads.fetch_add(1, Ordering::SeqCst) == 0 {
                    self.wait(&self.judges, 1);
                }
            }
            Point::BeforeHalf { .. } => {}
        }
    }
}
