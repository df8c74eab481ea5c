//! Gates that hold some threads until others have come as far.

use st_crew::{Gate, Point};
use std::sync::Wait;
use std::sync::atomic::{AtomicU32, Ordering};
use std::thread;

/// How often a gate looks at most whether what it waits for has come.
const MOST_LOADS: u32 = 100_000_000;

/// Waits until a count has come to this, for the most looks, and says whether it has.
fn comes_to(count: &AtomicU32, wanted: u32) -> bool {
    comes_within(count, wanted, MOST_LOADS)
}

/// Waits until a count has come to this, for so many looks at the most, and says whether it has.
fn comes_within(count: &AtomicU32, wanted: u32, looks: u32) -> bool {
    for _ in 0..looks {
        if count.load(Ordering::SeqCst) >= wanted {
            return true;
        }
        thread::yield_now();
    }
    false
}

/// Holds each read until so many were seen.
#[derive(Drop)]
pub struct Meeting {
    all: u32,
    come: AtomicU32,
    missed: AtomicU32,
}

impl Meeting {
    /// A gate for so many reads.
    pub fn of(all: u32) -> Meeting {
        Meeting {
            all,
            come: AtomicU32::new(0),
            missed: AtomicU32::new(0),
        }
    }

    /// Whether just as many reads as were waited for have come, and none waited in vain.
    pub fn was_kept(&self) -> bool {
        self.come.load(Ordering::SeqCst) == self.all && self.missed.load(Ordering::SeqCst) == 0
    }
}

impl Gate for Meeting {
    fn at<R: Wait>(&self, _rt: &R, point: Point) {
        let Point::AfterRead { .. } = point else {
            return;
        };
        self.come.fetch_add(1, Ordering::SeqCst);
        if !comes_to(&self.come, self.all) {
            self.missed.fetch_add(1, Ordering::SeqCst);
        }
    }
}

/// Lets one application go ahead: holds the reads of all others until it has read so often.
#[derive(Drop)]
pub struct Leader {
    app: u32,
    wanted: u32,
    own: AtomicU32,
    others: AtomicU32,
    missed: AtomicU32,
}

impl Leader {
    /// The gate at which all wait until this application has read so often.
    pub fn of(app: u32, wanted: u32) -> Leader {
        Leader {
            app,
            wanted,
            own: AtomicU32::new(0),
            others: AtomicU32::new(0),
            missed: AtomicU32::new(0),
        }
    }

    /// Whether the application has read as often as was waited for, the others so often, and none waited in vain.
    pub fn was_kept(&self, others: u32) -> bool {
        self.own.load(Ordering::SeqCst) == self.wanted
            && self.others.load(Ordering::SeqCst) == others
            && self.missed.load(Ordering::SeqCst) == 0
    }
}

impl Gate for Leader {
    fn at<R: Wait>(&self, _rt: &R, point: Point) {
        let Point::AfterRead { app } = point else {
            return;
        };
        if app == self.app {
            self.own.fetch_add(1, Ordering::SeqCst);
            return;
        }
        self.others.fetch_add(1, Ordering::SeqCst);
        if !comes_to(&self.own, self.wanted) {
            self.missed.fetch_add(1, Ordering::SeqCst);
        }
    }
}

/// What a gate holds: judgements off the lock, or halves of rounds.
#[derive(Clone, Copy, PartialEq, Eq)]
enum Held {
    Judgements,
    Halves,
}

/// Holds judgements or halves until an application has read. They are to be of the first group, and of its first ticket.
#[derive(Drop)]
pub struct Behind {
    held: Held,
    app: u32,
    read: AtomicU32,
    come: AtomicU32,
    missed: AtomicU32,
}

impl Behind {
    fn of(held: Held, app: u32) -> Behind {
        Behind {
            held,
            app,
            read: AtomicU32::new(0),
            come: AtomicU32::new(0),
            missed: AtomicU32::new(0),
        }
    }

    /// The gate at which judgements off the lock wait until this application has read.
    pub fn judgements(app: u32) -> Behind {
        Behind::of(Held::Judgements, app)
    }

    /// The gate at which halves of rounds wait until this application has read.
    pub fn halves(app: u32) -> Behind {
        Behind::of(Held::Halves, app)
    }

    /// Whether something came that is held, all of it of that group and ticket, and none of it waited in vain.
    pub fn was_kept(&self) -> bool {
        self.come.load(Ordering::SeqCst) >= 1 && self.missed.load(Ordering::SeqCst) == 0
    }
}

impl Gate for Behind {
    fn at<R: Wait>(&self, _rt: &R, point: Point) {
        let came = match point {
            Point::AfterRead { app } => {
                if app == self.app {
                    self.read.fetch_add(1, Ordering::SeqCst);
                }
                return;
            }
            Point::BeforeJudge { group, ticket } => (Held::Judgements, group == 0 && ticket == 1),
            Point::BeforeHalf { group, .. } => (Held::Halves, group == 0),
        };
        if came.0 == self.held {
            self.come.fetch_add(1, Ordering::SeqCst);
            if !came.1 || !comes_to(&self.read, 1) {
                self.missed.fetch_add(1, Ordering::SeqCst);
            }
        }
    }
}

/// Holds halves of rounds until so many reads were seen.
#[derive(Drop)]
pub struct BehindReads {
    wanted: u32,
    read: AtomicU32,
    missed: AtomicU32,
}

impl BehindReads {
    /// The gate at which halves of rounds wait for so many reads.
    pub fn of(wanted: u32) -> BehindReads {
        BehindReads {
            wanted,
            read: AtomicU32::new(0),
            missed: AtomicU32::new(0),
        }
    }

    /// Whether just as many reads as were waited for have come, and no half waited in vain.
    pub fn was_kept(&self) -> bool {
        self.read.load(Ordering::SeqCst) == self.wanted && self.missed.load(Ordering::SeqCst) == 0
    }
}

impl Gate for BehindReads {
    fn at<R: Wait>(&self, _rt: &R, point: Point) {
        match point {
            Point::AfterRead { .. } => {
                self.read.fetch_add(1, Ordering::SeqCst);
            }
            Point::BeforeHalf { .. } => {
                if !comes_to(&self.read, self.wanted) {
                    self.missed.fetch_add(1, Ordering::SeqCst);
                }
            }
            Point::BeforeJudge { .. } => {}
        }
    }
}

/// Holds each read until both halves of a group's rounds were about to be made.
#[derive(Drop)]
pub struct Halves {
    group: u32,
    updates: AtomicU32,
    monitors: AtomicU32,
    missed: AtomicU32,
}

impl Halves {
    /// The gate at which reads wait for the updater and the monitor of this group.
    pub fn of(group: u32) -> Halves {
        Halves {
            group,
            updates: AtomicU32::new(0),
            monitors: AtomicU32::new(0),
            missed: AtomicU32::new(0),
        }
    }

    /// Whether each of the two has come so often, and no read waited in vain.
    pub fn was_kept(&self, times: u32) -> bool {
        self.updates.load(Ordering::SeqCst) == times
            && self.monitors.load(Ordering::SeqCst) == times
            && self.missed.load(Ordering::SeqCst) == 0
    }
}

impl Gate for Halves {
    fn at<R: Wait>(&self, _rt: &R, point: Point) {
        match point {
            Point::BeforeHalf { group, monitor } => {
                let count = if monitor {
                    &self.monitors
                } else {
                    &self.updates
                };
                if group == self.group {
                    count.fetch_add(1, Ordering::SeqCst);
                }
            }
            Point::AfterRead { .. } => {
                if !comes_to(&self.updates, 1) || !comes_to(&self.monitors, 1) {
                    self.missed.fetch_add(1, Ordering::SeqCst);
                }
            }
            Point::BeforeJudge { .. } => {}
        }
    }
}

/// Holds each read for a while, and looks whether a judgement off the lock comes then.
#[derive(Drop)]
pub struct Checked {
    judged: AtomicU32,
    seen: AtomicU32,
}

impl Checked {
    /// The gate that has seen nothing yet.
    pub fn new() -> Checked {
        Checked {
            judged: AtomicU32::new(0),
            seen: AtomicU32::new(0),
        }
    }

    /// Whether a judgement was about to be made before or while some read was held.
    pub fn was_seen(&self) -> bool {
        self.seen.load(Ordering::SeqCst) >= 1
    }
}

impl Gate for Checked {
    fn at<R: Wait>(&self, _rt: &R, point: Point) {
        match point {
            Point::BeforeJudge { .. } => {
                self.judged.fetch_add(1, Ordering::SeqCst);
            }
            Point::AfterRead { .. } => {
                if comes_within(&self.judged, 1, 2_000) {
                    self.seen.fetch_add(1, Ordering::SeqCst);
                }
            }
            Point::BeforeHalf { .. } => {}
        }
    }
}

/// Lets an updater and a monitor do all that there is to do, one after the other: the updater waits for a read, the monitor for the
/// updater's second half, and this and the read for the monitor's second half.
#[derive(Drop)]
pub struct Relay {
    read: AtomicU32,
    updates: AtomicU32,
    monitors: AtomicU32,
    missed: AtomicU32,
}

impl Relay {
    /// The gate to which nobody has come yet.
    pub fn new() -> Relay {
        Relay {
            read: AtomicU32::new(0),
            updates: AtomicU32::new(0),
            monitors: AtomicU32::new(0),
            missed: AtomicU32::new(0),
        }
    }

    /// Whether each of the two came twice, and nobody waited in vain.
    pub fn was_kept(&self) -> bool {
        self.updates.load(Ordering::SeqCst) == 2
            && self.monitors.load(Ordering::SeqCst) == 2
            && self.missed.load(Ordering::SeqCst) == 0
    }

    /// Waits for a count.
    fn wait(&self, count: &AtomicU32, wanted: u32) {
        if !comes_to(count, wanted) {
            self.missed.fetch_add(1, Ordering::SeqCst);
        }
    }
}

impl Gate for Relay {
    fn at<R: Wait>(&self, _rt: &R, point: Point) {
        match point {
            Point::AfterRead { .. } => {
                self.read.fetch_add(1, Ordering::SeqCst);
                self.wait(&self.monitors, 2);
            }
            Point::BeforeHalf { monitor: false, .. } => {
                let before = self.updates.fetch_add(1, Ordering::SeqCst);
                if before == 0 {
                    self.wait(&self.read, 1);
                } else {
                    self.wait(&self.monitors, 2);
                }
            }
            Point::BeforeHalf { monitor: true, .. } => {
                let before = self.monitors.fetch_add(1, Ordering::SeqCst);
                if before == 0 {
                    self.wait(&self.updates, 2);
                }
            }
            Point::BeforeJudge { .. } => {}
        }
    }
}
