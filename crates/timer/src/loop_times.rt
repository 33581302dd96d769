//! Durations of runs of a loop.

use std::time::Duration;

/// The number of events of a run, and the duration of the shortest of several runs.
#[derive(Clone, Copy)]
pub struct LoopTimes {
    /// The number of events of each.
    pub events: usize,
    /// The duration of the shortest.
    pub least: Duration,
}
