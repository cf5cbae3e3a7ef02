//! The open pages but the tail.
ghost use Rattle.std.specs.Prelude.{◌≡◌, ◌+◌, ◌≤◌, ◌<◌, [], ◌∷◌, ◌++◌, length, option_to_list, None, Some, IfOk};
ghost use Rattle.std.specs.Borrow.{sem};
ghost use Rattle.std.specs.List.{slice_get};
ghost use Rattle.page_image.specs.Contents.{Contents};
ghost use Rattle.nested_writer.specs.Lending.{LendsPage};
ghost use Rattle.nested_writer.specs.Unclosed.{first_of_pages};

use crate::payload::Payload;
use page_image::Page;
use record_words::Place;
use std::alloc::{AllocError, Global};
use std::collections::VecDeque;
use std::marker::Model;

/// The open pages but the tail, the oldest first.
#[derive(Drop)]
pub(crate) struct Older {
    pages: VecDeque<Payload>,
}

impl Model for Older {
    ghost use Rattle.std.specs.Prelude.{map};
    ghost use Rattle.std.specs.VecDeque.{deque_capacity};
    ghost use Rattle.nested_writer.specs.Lent.{OlderPages, page_of};

    ghost Value = { OlderPages };

    ghost view = { λ o. record { pages = map page_of o.pages.items; room = deque_capacity o.pages } };
}

impl Older {
    /// None, with room for `room` of them.
    pub(crate) fn new(alloc: Global, room: usize) -> Result<Older, AllocError>
        ensures none { IfOk result (λ older. older.pages ≡ []) }
        ensures room { IfOk result (λ older. older.room ≡ room) }
    {
        let pages = VecDeque::with_capacity(alloc, room)?;
        Ok(Older { pages })
    }

    /// How many.
    #[inline(always)]
    pub(crate) fn len(&self) -> usize
        ensures { result ≡ length self.now.pages }
    {
        self.pages.len()
    }

    /// The number of the first record of the oldest page, if there is one.
    #[inline(always)]
    pub(crate) fn first_number(&self) -> Option<u64>
        ensures { result ≡ first_of_pages self.now.pages }
    {
        match self.pages.front() {
            Some(payload) => Some(payload.first_number().0),
            None => None,
        }
    }

    /// One page more, the newest.
    pub(crate) fn push(&mut self, page: Payload)
        requires { length self.old.pages < self.old.room }
        ensures { self.new ≡ record self.old { pages = self.old.pages ++ page.page ∷ [] } }
    {
        self.pages.push_back_reserved(page);
    }

    /// Takes the oldest page out, if there is one. All its records are committed, and it states so.
    pub(crate) fn pop(&mut self) -> Option<Page>
        ensures pages { self.old.pages ≡ option_to_list result ++ self.new.pages }
        ensures none { result ≡ None → self.old.pages ≡ [] }
        ensures room { self.new.room ≡ self.old.room }
    {
        let mut payload = self.pages.pop_front()?;
        payload.store_commit();
        Some(payload.into_page())
    }

    /// Lends the payload at this place of the page of this index.
    #[inline(always)]
    pub(crate) fn lend(&mut self, index: usize, place: Place) -> &mut Payload
        requires inside { index < length self.old.pages }
        requires within { (page : Contents) → slice_get self.old.pages index ≡ Some page
            → place.start + place.len ≤ length page.bytes }
        ensures* lends { sem 𝓛 (LendsPage self.entry index result) }
        ensures page { slice_get self.old.pages index ≡ Some result.now.page }
        ensures place { result.now.place ≡ place }
    {
        let payload = &mut self.pages[index];
        payload.lend(place);
        payload
    }
}
