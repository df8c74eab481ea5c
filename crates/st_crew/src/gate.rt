//! The gate: what whoever starts the jobs is told at named points of their work. The shipped gate does nothing, and a test's
//! gate holds a job until another has come as far.

use std::sync::Wait;

/// A point of a job's work.
#[derive(Clone, Copy, Debug, PartialEq, Eq)]
pub enum Point {
    /// A ticket of a group is about to be judged, without the group's lock.
    BeforeJudge { group: u32, ticket: u32 },
    /// An application has read a published target.
    AfterRead { app: u32 },
    /// The update half of a round of a group is about to be made, or the monitor half.
    BeforeHalf { group: u32, monitor: bool },
}

/// What is called at each point, by the thread that has come there. It answers nothing, and may wait.
pub trait Gate {
    /// Is called when the thread comes to this point, and before it goes on.
    fn at<R: Wait>(&self, rt: &R, point: Point);
}

/// The gate that does nothing.
#[derive(Clone, Copy, Debug)]
pub struct NoGate;

impl Gate for NoGate {
    fn at<R: Wait>(&self, _rt: &R, _point: Point) {}
}
