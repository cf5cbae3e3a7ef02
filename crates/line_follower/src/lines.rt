//! Lines, and where each stands in the order.
use trace_model::{CpuId, Moment, RecordNo};

/// Where a line stands in the order: by moment, then by CPU, then by number.
#[derive(Clone, Copy, Debug, PartialEq, Eq, PartialOrd, Ord)]
pub struct Place {
    pub moment: Moment,
    pub cpu: CpuId,
    pub number: RecordNo,
}

impl Place {
    /// The place that none is before.
    pub(crate) const FIRST: Place = Place {
        moment: Moment(0),
        cpu: CpuId(0),
        number: RecordNo(0),
    };
}

/// The line of a record: its place, and whatever else is said of it.
#[derive(Debug, PartialEq, Eq, Drop)]
pub struct Line<T> {
    pub place: Place,
    pub content: T,
}

/// A line that is given out.
#[derive(Debug, PartialEq, Eq, Drop)]
pub enum Said<T> {
    /// No line that was given before belongs after it.
    InOrder(Line<T>),
    /// It belongs before a line that was given before.
    Late(Line<T>),
}
