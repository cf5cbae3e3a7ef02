//! Rows of collectors: a row begins with `[NAME] collectors N`. Each request is a call of `page_image`, `page_numbers`,
//! `capture`, `collector` or `collector_text`.
//!
//! A request that is refused memory is carried out once more, after a line `memory` and the text of each collector of
//! the row: so a caller that refuses it a growth sees that nothing has changed, and that the call succeeds then.
mod answer;
mod calls;
mod captures;
mod request;
mod row;

pub use row::CollectorRow;
