//! The table of a ring, and its rule.
use crate::views::View;
use atomic_table::{Table, TableRule};
use page_image::Page;
use std::alloc::Global;

/// The number of a ring's pages, their data size in bytes, and the number of its first fill.
#[derive(Clone, Copy, Debug)]
pub struct Shape {
    /// How many pages the ring has, without the reader's.
    pub pages: usize,
    /// How many bytes of data each page has.
    pub size: usize,
    /// The number of the first fill.
    pub start: u64,
}

/// The words, the pages at home and the views show a state of the ring.
pub struct ShowsRing;

impl TableRule<Option<Page>, View, Shape> for ShowsRing {
    ghost use Rattle.ring_steps.specs.Views.{laid};
    ghost use Rattle.ring_steps.specs.Shown.{Shows};
    ghost use Rattle.ring_steps.specs.NewRings.{first_writing, first_reading};

    ghost holds = { λ shape. Shows shape.pages shape.size shape.start };

    ghost first = { λ shape. laid (first_writing shape) (first_reading shape) };
}

/// The words and the page slots of a ring.
pub type Board = Table<Option<Page>, View, Shape, ShowsRing, Global>;
