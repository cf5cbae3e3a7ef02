//! A page written as an image.
use crate::image::{Commit, HEADER};
use crate::page::Page;
use std::alloc::Global;
use trace_model::NoMemory;

impl Page {
    ghost use Rattle.std.specs.Prelude.{◌≡◌, ◌+◌, ◌-◌, ◌≤◌, ◌++◌, length, drop, replicate, IfOk};
    ghost use Rattle.trace_model.specs.declared.limits.TheConstants.{MAX_IMAGE};
    ghost use Rattle.trace_model.specs.Image.{DecodesImage, image_of, missed_reported, stored_count};
    ghost use Rattle.page_image.specs.Contents.{IsPage, records_of_page};

    /// The page as an image: a header of 16 bytes, the data, the count of missed records if there were any and eight
    /// bytes are left for it, and zeros up to the page's size. `missed` is how many records were missed before
    /// the page.
    pub fn write_image(&self, alloc: Global, missed: u64) -> Result<Vec<u8>, NoMemory>
        ensures image { IfOk result (λ image.
            image.items ≡ image_of self.now.time self.now.bytes missed self.now.size) }
        ensures size { IfOk result (λ image. length image.items ≡ HEADER + self.now.size) }
        ensures limit { IfOk result (λ image. length image.items ≤ MAX_IMAGE) }
        ensures behind { IfOk result (λ image. drop (HEADER + length self.now.bytes) image.items
            ≡ stored_count self.now.bytes missed self.now.size ++ replicate (self.now.size - length self.now.bytes
            - length (stored_count self.now.bytes missed self.now.size)) 0) }
        ensures reads { IfOk result (λ image. IsPage self.now
            → DecodesImage image.items self.now.time (length self.now.bytes)
            (missed_reported self.now.bytes missed self.now.size) (records_of_page self.now)) }
    {
        let size = HEADER + self.body.size();
        let commit = Commit::written(self.end, missed, self.body.size());
        let mut image = Vec::with_capacity(alloc, size)?;
        image.extend_from_slice(&self.time.to_le_bytes())?;
        image.extend_from_slice(&commit.word().to_le_bytes())?;
        image.extend_from_slice(self.data())?;
        if commit.stores_count() {
            image.extend_from_slice(&missed.to_le_bytes())?;
        }
        image.resize(size, 0)?;
        Ok(image)
    }
}
