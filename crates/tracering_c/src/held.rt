//! A ring's end, a collector or a fleet, as a pointer that owns it, or null.
ghost use denote.RawPtr.{null_ptr};
ghost use Rattle.std.specs.Borrow.{sem};
ghost use Rattle.std.specs.Prelude.{◌≡◌, Some, None, Option, is_some, true};
ghost use Rattle.tracering_c.specs.Held.{End, held, writer_of, reader_of, collector_of, fleet_of};

use crate::ends::{HeldCollector, HeldFleet, HeldReader, HeldWriter};
use library_values::loose_box::Loose;
use std::alloc::Global;
use std::marker::Model;

/// What C sees of a handle's memory: nothing.
#[repr(C)]
pub struct Opaque {
    first: u8,
}

/// A writer, a reader, a collector or a fleet, or nothing. Which of them it is only proofs see: C's types distinguish
/// them. An export takes no generic struct, and a tag in memory would cost each call a test.
#[repr(C)]
#[derive(Drop)]
pub struct Held {
    at: *mut Opaque,
    pub ghost value: { Option End },
}

impl Model for Held {
    ghost also_owns = { λ h. held h.at h.value };
}

unsafe impl Send for Held {}

impl Held {
    ghost use Rattle.tracering_c.specs.Lending.{LendsWriter, LendsReader, LendsCollector, LendsFleet};

    /// Nothing.
    #[inline(always)]
    pub(crate) fn none() -> Held
        ensures { result ≡ record { at = null_ptr; value = None } }
    {
        Held {
            at: std::ptr::null_mut(),
        }
    }

    /// The writer of this box.
    #[inline(always)]
    pub(crate) fn of_writer(loose: Loose<HeldWriter, Global>) -> Held
        ensures { writer_of result.value ≡ Some loose.value }
    {
        let Loose { at, alloc: _alloc } = loose;
        Held {
            at: at as *mut Opaque,
        }
    }

    /// The writer, which must be there.
    #[inline(always)]
    pub(crate) fn writer(&mut self) -> &mut HeldWriter
        requires { is_some (writer_of self.old.value) ≡ true }
        ensures* writes_back { sem 𝓛 (LendsWriter self.entry result) }
        ensures value { writer_of self.old.value ≡ Some result.now }
    {
        unsafe { &mut *(self.at as *mut HeldWriter) }
    }

    /// The writer's box.
    #[inline(always)]
    pub(crate) fn into_writer(self, alloc: Global) -> Loose<HeldWriter, Global>
        requires { is_some (writer_of self.value) ≡ true }
        ensures { writer_of self.value ≡ Some result.value }
    {
        let Held { at } = self;
        Loose {
            at: at as *mut HeldWriter,
            alloc,
        }
    }

    /// The reader of this box.
    #[inline(always)]
    pub(crate) fn of_reader(loose: Loose<HeldReader, Global>) -> Held
        ensures { reader_of result.value ≡ Some loose.value }
    {
        let Loose { at, alloc: _alloc } = loose;
        Held {
            at: at as *mut Opaque,
        }
    }

    /// The reader, which must be there.
    #[inline(always)]
    pub(crate) fn reader(&mut self) -> &mut HeldReader
        requires { is_some (reader_of self.old.value) ≡ true }
        ensures* writes_back { sem 𝓛 (LendsReader self.entry result) }
        ensures value { reader_of self.old.value ≡ Some result.now }
    {
        unsafe { &mut *(self.at as *mut HeldReader) }
    }

    /// The reader's box.
    #[inline(always)]
    pub(crate) fn into_reader(self, alloc: Global) -> Loose<HeldReader, Global>
        requires { is_some (reader_of self.value) ≡ true }
        ensures { reader_of self.value ≡ Some result.value }
    {
        let Held { at } = self;
        Loose {
            at: at as *mut HeldReader,
            alloc,
        }
    }

    /// The collector of this box.
    #[inline(always)]
    pub(crate) fn of_collector(loose: Loose<HeldCollector, Global>) -> Held
        ensures { collector_of result.value ≡ Some loose.value }
    {
        let Loose { at, alloc: _alloc } = loose;
        Held {
            at: at as *mut Opaque,
        }
    }

    /// The collector, which must be there.
    #[inline(always)]
    pub(crate) fn collector(&mut self) -> &mut HeldCollector
        requires { is_some (collector_of self.old.value) ≡ true }
        ensures* writes_back { sem 𝓛 (LendsCollector self.entry result) }
        ensures value { collector_of self.old.value ≡ Some result.now }
    {
        unsafe { &mut *(self.at as *mut HeldCollector) }
    }

    /// The collector's box.
    #[inline(always)]
    pub(crate) fn into_collector(self, alloc: Global) -> Loose<HeldCollector, Global>
        requires { is_some (collector_of self.value) ≡ true }
        ensures { collector_of self.value ≡ Some result.value }
    {
        let Held { at } = self;
        Loose {
            at: at as *mut HeldCollector,
            alloc,
        }
    }

    /// The fleet of this box.
    #[inline(always)]
    pub(crate) fn of_fleet(loose: Loose<HeldFleet, Global>) -> Held
        ensures { fleet_of result.value ≡ Some loose.value }
    {
        let Loose { at, alloc: _alloc } = loose;
        Held {
            at: at as *mut Opaque,
        }
    }

    /// The fleet, which must be there.
    #[inline(always)]
    pub(crate) fn fleet(&mut self) -> &mut HeldFleet
        requires { is_some (fleet_of self.old.value) ≡ true }
        ensures* writes_back { sem 𝓛 (LendsFleet self.entry result) }
        ensures value { fleet_of self.old.value ≡ Some result.now }
    {
        unsafe { &mut *(self.at as *mut HeldFleet) }
    }

    /// The fleet's box.
    #[inline(always)]
    pub(crate) fn into_fleet(self, alloc: Global) -> Loose<HeldFleet, Global>
        requires { is_some (fleet_of self.value) ≡ true }
        ensures { fleet_of self.value ≡ Some result.value }
    {
        let Held { at } = self;
        Loose {
            at: at as *mut HeldFleet,
            alloc,
        }
    }
}
