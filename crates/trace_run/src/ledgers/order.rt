//! Whether ledgers are in the order in which a run leaves them.
ghost use Rattle.std.specs.Prelude.{◌≡◌, ◌↔◌, IsTrue};
ghost use Rattle.collector.specs.deliveries.Deliveries.{AreRising};
ghost use Rattle.page_numbers.specs.Parcels.{as_parcels, AreOfCpu};
ghost use Rattle.trace_run.specs.ledgers.Order.{AreInOrder};
ghost use Rattle.trace_run.specs.declared.ledgers.order.LedgerOrder.TheVariants.{Rising};

use crate::ledgers::ledger::Ledger;
use page_numbers::Parcel;

/// What is known of the order of ledgers.
#[derive(Clone, Copy, Debug)]
pub(crate) enum LedgerOrder {
    /// Each ledger has parcels of its own CPU alone, and their fills rise.
    Rising,
    /// Nothing.
    Unknown,
}

/// Whether the parcels are all of this CPU, and their fills rise.
fn are_rising_of(cpu: usize, parcels: &[Parcel]) -> bool
    ensures { IsTrue result ↔ (AreOfCpu (as_parcels parcels.now) cpu × AreRising (as_parcels parcels.now)) }
{
    for index in 0..parcels.len() {
        let parcel = &parcels[index];
        if parcel.cpu().0 as usize != cpu {
            return false;
        }
        if index > 0 && parcels[index - 1].fill().0 >= parcel.fill().0 {
            return false;
        }
    }
    true
}

/// In which order the ledgers are.
pub(crate) fn order_of(ledgers: &[Ledger]) -> LedgerOrder
    ensures { (result ≡ Rising) ↔ AreInOrder ledgers.now }
{
    for cpu in 0..ledgers.len() {
        if !are_rising_of(cpu, &ledgers[cpu].taken) {
            return LedgerOrder::Unknown;
        }
    }
    LedgerOrder::Rising
}
