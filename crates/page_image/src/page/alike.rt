//! Whether two pages hold the same.
use crate::page::Page;

impl Page {
    ghost use Rattle.std.specs.Prelude.{IsTrue, ◌↔◌};
    ghost use Rattle.page_image.specs.Contents.{HaveSameData};

    /// Whether both pages have the same time and the same data: then they have the same records.
    pub fn has_data_of(&self, other: &Page) -> bool
        ensures { IsTrue result ↔ HaveSameData self.now other.now }
    {
        self.time == other.time && self.data() == other.data()
    }
}
