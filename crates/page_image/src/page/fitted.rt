//! A page in a body as long as its data.
use crate::body::Body;
use crate::page::Page;
use std::alloc::Global;
use trace_model::NoMemory;

impl Page {
    ghost use Rattle.std.specs.Prelude.{◌≡◌, length, IfOk};
    ghost use Rattle.page_image.specs.Contents.{IsPage};

    /// A copy of the page in a body of its own that is exactly as long as its data: it has no room for another record.
    pub fn fitted(&self, alloc: Global) -> Result<Page, NoMemory>
        ensures page { IfOk result (λ page. page ≡ record self.now { size = length self.now.bytes }) }
        ensures reads { IfOk result (λ page. IsPage self.now → IsPage page) }
    {
        let body = Body::of(alloc, self.body.front(self.end))?;
        Ok(Page { body, ..*self })
    }
}
