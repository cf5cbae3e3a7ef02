//! Pages, with the records that they lend, and page images.
pub use page_borrow::{Entry, Records, records, slot_mut};
pub use page_image::{
    Body, Image, ImageFault, Missed, Outline, Page, Passed, Place, Reached, commit_number,
    number_at, read_image, read_outline, step_over_word, stores_count,
};
