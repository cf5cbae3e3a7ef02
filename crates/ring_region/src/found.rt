//! A page of a region.
ghost use Rattle.std.specs.Prelude.{◌≤◌};
ghost use Rattle.trace_model.specs.declared.limits.TheConstants.{MAX_PAGES};

use crate::numbered::Numbered;

/// A page that was read, and how many slots are before its own.
#[derive(Drop)]
pub(crate) struct Found {
    pub(crate) slot: usize,
    pub(crate) page: Numbered,
    ghost few: { slot ≤ MAX_PAGES },
}
