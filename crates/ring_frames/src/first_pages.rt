//! The order of a new ring's pages.
ghost use Rattle.std.specs.Prelude.{◌≡◌, ◌≤◌, length, vec_capacity, IfOk};
ghost use Rattle.trace_model.specs.declared.limits.TheConstants.{MAX_PAGES};
ghost use Rattle.ring_frames.specs.FirstPages.{AreFirstPages};

use std::alloc::Global;
use trace_model::NoMemory;

/// The pages of a new ring: each position has the page of its number.
pub fn first_order(alloc: Global, pages: usize) -> Result<Vec<u16>, NoMemory>
    requires { pages ≤ MAX_PAGES }
    ensures pages { IfOk result (λ order. length order.items ≡ pages) }
    ensures order { IfOk result (λ order. AreFirstPages order.items) }
    ensures room { IfOk result (λ order. vec_capacity order ≡ pages) }
{
    let mut order = Vec::with_capacity(alloc, pages)?;
    for page in 0..pages as u16 {
        order.push_reserved(page);
    }
    Ok(order)
}
