//! What the replay of a script answers.
use crate::log::LogLine;
use collector::Collector;

/// What the replay of a script leaves: its collectors, by their numbers, and the log.
#[derive(Debug, Drop)]
pub struct World {
    /// The collectors, the one of number 0 first.
    pub collectors: Vec<Collector>,
    /// What the commands met, in their order.
    pub log: Vec<LogLine>,
}
