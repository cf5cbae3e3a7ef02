//! The handles, as C keeps them. Each is a type of its own, since C's types keep them apart.
ghost use Rattle.std.specs.Prelude.{◌≡◌, true, Some, None, is_some, IsSomeAnd};
ghost use Rattle.tracering_c.specs.declared.ends.HeldWriter.{HeldWriter as WriterValue};
ghost use Rattle.tracering_c.specs.declared.ends.HeldReader.{HeldReader as ReaderValue};
ghost use Rattle.tracering_c.specs.declared.ends.HeldCollector.{HeldCollector as CollectorValue};
ghost use Rattle.tracering_c.specs.declared.ends.HeldFleet.{HeldFleet as FleetValue};
ghost use Rattle.tracering_c.specs.Held.{writer_of, reader_of, collector_of, fleet_of};
ghost use Rattle.tracering_c.specs.Zeros.{AreZeros};

use crate::ends::{HeldCollector, HeldFleet, HeldReader, HeldWriter};
use crate::held::Held;
use library_values::loose_box::Loose;
use std::alloc::Global;
use std::mem::replace;

/// A ring's writer, or nothing, as C keeps it.
#[repr(C)]
#[derive(Drop)]
pub struct WriterHandle {
    pub(crate) held: Held,
    /// Whether there is one.
    pub(crate) live: bool,
    pub ghost tied: { (live ≡ is_some (writer_of held.value)) × (live ≡ is_some held.value) },
}

impl WriterHandle {
    /// No writer.
    pub(crate) fn none() -> WriterHandle
        ensures none { writer_of result.held.value ≡ None }
        ensures zeros { AreZeros result.held.at result.live }
    {
        WriterHandle {
            held: Held::none(),
            live: false,
        }
    }

    /// This writer.
    pub(crate) fn of(end: Box<HeldWriter, Global>) -> WriterHandle
        ensures { writer_of result.held.value ≡ Some end.value }
    {
        WriterHandle {
            held: Held::of_writer(Loose::of(end)),
            live: true,
        }
    }

    /// The writer, if there is one: the handle has none then.
    pub(crate) fn take_out(&mut self, alloc: Global) -> Option<Box<HeldWriter, Global>>
        ensures stays { writer_of self.old.held.value ≡ None → self.new ≡ self.old }
        ensures none { writer_of self.old.held.value ≡ None → result ≡ None }
        ensures left { (x : WriterValue) → writer_of self.old.held.value ≡ Some x
            → writer_of self.new.held.value ≡ None }
        ensures zeros { (x : WriterValue) → writer_of self.old.held.value ≡ Some x
            → AreZeros self.new.held.at self.new.live }
        ensures some { (x : WriterValue) → writer_of self.old.held.value ≡ Some x
            → IsSomeAnd result (λ end. end.value ≡ x) }
    {
        if !self.live {
            return None;
        }
        let WriterHandle { held, .. } = replace(self, WriterHandle::none());
        Some(held.into_writer(alloc).into_box())
    }
}

/// A ring's reader, or nothing, as C keeps it.
#[repr(C)]
#[derive(Drop)]
pub struct ReaderHandle {
    pub(crate) held: Held,
    /// Whether there is one.
    pub(crate) live: bool,
    pub ghost tied: { (live ≡ is_some (reader_of held.value)) × (live ≡ is_some held.value) },
}

impl ReaderHandle {
    /// No reader.
    pub(crate) fn none() -> ReaderHandle
        ensures none { reader_of result.held.value ≡ None }
        ensures zeros { AreZeros result.held.at result.live }
    {
        ReaderHandle {
            held: Held::none(),
            live: false,
        }
    }

    /// This reader.
    pub(crate) fn of(end: Box<HeldReader, Global>) -> ReaderHandle
        ensures { reader_of result.held.value ≡ Some end.value }
    {
        ReaderHandle {
            held: Held::of_reader(Loose::of(end)),
            live: true,
        }
    }

    /// The reader, if there is one: the handle has none then.
    pub(crate) fn take_out(&mut self, alloc: Global) -> Option<Box<HeldReader, Global>>
        ensures stays { reader_of self.old.held.value ≡ None → self.new ≡ self.old }
        ensures none { reader_of self.old.held.value ≡ None → result ≡ None }
        ensures left { (x : ReaderValue) → reader_of self.old.held.value ≡ Some x
            → reader_of self.new.held.value ≡ None }
        ensures zeros { (x : ReaderValue) → reader_of self.old.held.value ≡ Some x
            → AreZeros self.new.held.at self.new.live }
        ensures some { (x : ReaderValue) → reader_of self.old.held.value ≡ Some x
            → IsSomeAnd result (λ end. end.value ≡ x) }
    {
        if !self.live {
            return None;
        }
        let ReaderHandle { held, .. } = replace(self, ReaderHandle::none());
        Some(held.into_reader(alloc).into_box())
    }
}

/// A collector, or nothing, as C keeps it.
#[repr(C)]
#[derive(Drop)]
pub struct CollectorHandle {
    pub(crate) held: Held,
    /// Whether there is one.
    pub(crate) live: bool,
    pub ghost tied: { (live ≡ is_some (collector_of held.value)) × (live ≡ is_some held.value) },
}

impl CollectorHandle {
    /// No collector.
    pub(crate) fn none() -> CollectorHandle
        ensures none { collector_of result.held.value ≡ None }
        ensures zeros { AreZeros result.held.at result.live }
    {
        CollectorHandle {
            held: Held::none(),
            live: false,
        }
    }

    /// This collector.
    pub(crate) fn of(end: Box<HeldCollector, Global>) -> CollectorHandle
        ensures { collector_of result.held.value ≡ Some end.value }
    {
        CollectorHandle {
            held: Held::of_collector(Loose::of(end)),
            live: true,
        }
    }

    /// The collector, if there is one: the handle has none then.
    pub(crate) fn take_out(&mut self, alloc: Global) -> Option<Box<HeldCollector, Global>>
        ensures stays { collector_of self.old.held.value ≡ None → self.new ≡ self.old }
        ensures none { collector_of self.old.held.value ≡ None → result ≡ None }
        ensures left { (x : CollectorValue) → collector_of self.old.held.value ≡ Some x
            → collector_of self.new.held.value ≡ None }
        ensures zeros { (x : CollectorValue) → collector_of self.old.held.value ≡ Some x
            → AreZeros self.new.held.at self.new.live }
        ensures some { (x : CollectorValue) → collector_of self.old.held.value ≡ Some x
            → IsSomeAnd result (λ end. end.value ≡ x) }
    {
        if !self.live {
            return None;
        }
        let CollectorHandle { held, .. } = replace(self, CollectorHandle::none());
        Some(held.into_collector(alloc).into_box())
    }
}

/// A fleet, or nothing, as C keeps it.
#[repr(C)]
#[derive(Drop)]
pub struct FleetHandle {
    pub(crate) held: Held,
    /// Whether there is one.
    pub(crate) live: bool,
    pub ghost tied: { (live ≡ is_some (fleet_of held.value)) × (live ≡ is_some held.value) },
}

impl FleetHandle {
    /// No fleet.
    pub(crate) fn none() -> FleetHandle
        ensures none { fleet_of result.held.value ≡ None }
        ensures zeros { AreZeros result.held.at result.live }
    {
        FleetHandle {
            held: Held::none(),
            live: false,
        }
    }

    /// This fleet.
    pub(crate) fn of(end: Box<HeldFleet, Global>) -> FleetHandle
        ensures { fleet_of result.held.value ≡ Some end.value }
    {
        FleetHandle {
            held: Held::of_fleet(Loose::of(end)),
            live: true,
        }
    }

    /// The fleet, if there is one: the handle has none then.
    pub(crate) fn take_out(&mut self, alloc: Global) -> Option<Box<HeldFleet, Global>>
        ensures stays { fleet_of self.old.held.value ≡ None → self.new ≡ self.old }
        ensures none { fleet_of self.old.held.value ≡ None → result ≡ None }
        ensures left { (x : FleetValue) → fleet_of self.old.held.value ≡ Some x
            → fleet_of self.new.held.value ≡ None }
        ensures zeros { (x : FleetValue) → fleet_of self.old.held.value ≡ Some x
            → AreZeros self.new.held.at self.new.live }
        ensures some { (x : FleetValue) → fleet_of self.old.held.value ≡ Some x
            → IsSomeAnd result (λ end. end.value ≡ x) }
    {
        if !self.live {
            return None;
        }
        let FleetHandle { held, .. } = replace(self, FleetHandle::none());
        Some(held.into_fleet(alloc).into_box())
    }
}
