//! Receipts, by which what the writer's thread has done is before what the reader's does later.
use crate::reader::Reader;
use crate::writer::Writer;
use ring_steps::ReceiptSeat;
use std::fmt;
use std::marker::Model;

/// What a writer had done by some moment. It has no bytes, and can go to another thread, by a channel say: a reader of
/// the same ring that learns it finds all of that done.
#[derive(Drop)]
pub struct Receipt {
    seat: ReceiptSeat,
}

impl Model for Receipt {
    ghost use Rattle.ring_steps.specs.Ends.{made_in, receipt_table};
    ghost use Rattle.ring_shared.specs.Receipts.{ReceiptValue};

    ghost Value = { ReceiptValue };

    ghost view = { λ r. record { table = receipt_table r.seat; made = made_in r.seat } };
}

impl fmt::Debug for Receipt {
    fn fmt<W: fmt::Write>(&self, f: &mut fmt::Formatter<W>) -> fmt::Result {
        f.debug_struct("Receipt").finish_non_exhaustive()
    }
}

impl Writer {
    ghost use Rattle.std.specs.Prelude.{◌≡◌};
    ghost use Rattle.ring_shared.specs.Calls.{IsWriter};
    ghost use Rattle.ring_shared.specs.Receipts.{done_after};

    /// A receipt for all that this end has done so far. It costs one load of a word.
    pub fn receipt(&mut self) -> Receipt
        requires writer { IsWriter self.old }
        ensures made { result.made ≡ self.old.part.made }
        ensures done { done_after self.old.shape.start result.made ≡ self.old.part.done }
        ensures ring { result.table ≡ self.old.table }
        ensures stays { self.new ≡ self.old }
        ensures writer { IsWriter self.new }
    {
        Receipt {
            seat: self.seat.receipt(),
        }
    }
}

impl Reader {
    ghost use Rattle.std.specs.Prelude.{◌≡◌};
    ghost use Rattle.ring_steps.specs.Views.{with_lesson};
    ghost use Rattle.ring_shared.specs.Takes.{IsReader, SameRing};

    /// From now on this end knows what its ring's writer had done: in the run of both ends that is before all steps
    /// that this end makes later. So if a later take answers `Empty`, its number is at least the writer's `done()`
    /// when it gave the receipt. It costs one load of a word.
    ///
    /// ```
    /// let (mut writer, mut reader): (Writer, Reader) = ring(rt.alloc(), 2, 32)?;
    /// let receipt = writer.receipt();
    /// reader.learn(receipt);
    /// ```
    pub fn learn(&mut self, receipt: Receipt)
        requires reader { IsReader self.old }
        requires one_ring { receipt.table ≡ self.old.table }
        ensures learned { self.new ≡ record self.old { part = with_lesson self.old.part receipt.made } }
        ensures ring { SameRing self.old self.new }
        ensures reader { IsReader self.new }
    {
        let Receipt { seat } = receipt;
        self.seat.learn(seat);
    }
}
