//! Up to which moment a fleet is known, and forgetting what is before it.
ghost use Rattle.std.specs.Prelude.{◌≡◌};

use crate::fleet::Fleet;
use stream_collector::earlier;
use trace_model::{Moment, NoMemory};

impl Fleet {
    ghost use Rattle.std.specs.Prelude.{map, IfOk, OnOk, OnErr};
    ghost use Rattle.std.specs.List.Sorted.{IsStrictlyIncreasing};
    ghost use Rattle.stream_collector.specs.Frontier.{IsForgottenBefore};
    ghost use Rattle.fleet_collector.specs.Fleet.{stream_at, KeepsOthers};
    ghost use Rattle.fleet_collector.specs.Frontier.{IsFleetFrontier, AllForgottenBefore, SomeForgottenBefore};

    /// The moment up to which all is known, if each CPU's moments never fall: the least of the frontiers of the streams
    /// (`StreamCollector::frontier`). It is none if each CPU of which something is there is complete. What comes
    /// later is at or after it, but for records of a CPU of which nothing is there yet. It takes no memory.
    pub fn frontier(&self) -> Option<Moment>
        ensures { IsFleetFrontier self.now result }
    {
        let mut least = None;
        for (_stream, known) in self.streams() {
            least = earlier(least, known.frontier());
        }
        least
    }

    /// Raises the bound of each CPU of each stream to its cut at a moment, as `StreamCollector::forget_before` does:
    /// what `lines_before` lists at that moment is forgotten. If memory is refused, some streams may have been done; it
    /// may be called again.
    pub fn forget_before(&mut self, moment: Moment) -> Result<(), NoMemory>
        ensures forgotten { OnOk result (AllForgottenBefore self.old self.new moment.0) }
        ensures some { SomeForgottenBefore self.old self.new moment.0 }
    {
        let ids = self.ids()?;
        for id in &ids {
            self.forget_of(*id, moment)?;
        }
        Ok(())
    }

    /// The ids of the streams that are there.
    fn ids(&self) -> Result<Vec<u64>, NoMemory>
        ensures ids { IfOk result (λ ids. ids.items ≡ map (λ entry. entry.0) self.now) }
        ensures rising { IfOk result (λ ids. IsStrictlyIncreasing ids.items) }
    {
        let mut ids = Vec::new(self.alloc);
        for (stream, _known) in self.streams() {
            ids.push(stream.0)?;
        }
        Ok(ids)
    }

    /// Forgets what is before a moment in one stream, if it is there.
    fn forget_of(&mut self, id: u64, moment: Moment) -> Result<(), NoMemory>
        ensures forgotten { OnOk result (IsForgottenBefore (stream_at self.old id) (stream_at self.new id) moment.0) }
        ensures others { KeepsOthers self.old self.new id }
        ensures refused { OnErr result (self.new ≡ self.old) }
    {
        if let Some(known) = self.streams.get_mut(&id) {
            return known.forget_before(moment);
        }
        Ok(())
    }
}
