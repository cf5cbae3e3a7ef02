//! Marks of a stream, and its bounds.
use crate::change::{Change, apply};
use crate::fleet::Fleet;
use parcel_streams::StreamId;
use stream_collector::{MarkFault, Marked, StreamCollector};
use trace_model::{CpuId, RecordNo};

impl Fleet {
    ghost use Rattle.std.specs.Prelude.{◌≡◌, ℕ, ◌<◌, ◌↔◌, Some, None, IsSome, Ok, IfErr, OnOk, OnErr};
    ghost use Rattle.trace_model.specs.declared.limits.TheConstants.{MAX_CPUS};
    ghost use Rattle.stream_collector.specs.Stream.{end_of, IsUpToEnd};
    ghost use Rattle.stream_collector.specs.Marking.{IsNotOpen, HasEnd, IsEndFault};
    ghost use Rattle.stream_collector.specs.GivenUp.{GivesUp, AllGivenUp, IsUndeliveredFault};
    ghost use Rattle.stream_collector.specs.Forgetting.{RaisesBound, GivesUpBelow, AllAccounted};
    ghost use Rattle.stream_collector.specs.Forgetting.{IsBoundFault, IsForgetFault};
    ghost use Rattle.stream_collector.specs.declared.added.Marked.TheVariants.{New as NewMark, Known as KnownMark};
    ghost use Rattle.fleet_collector.specs.Fleet.{known_of, stream_at, KeepsOthers};
    ghost use Rattle.fleet_collector.specs.Changes.{MarksStream, IsChangedBy};

    /// A CPU of a stream has `count` records, and no more, as with `StreamCollector::set_end`. A stream that isn't
    /// there is made. On a fault nothing has changed.
    pub fn set_end(
        &mut self,
        stream: StreamId,
        cpu: CpuId,
        count: RecordNo,
    ) -> Result<Marked, MarkFault>
        requires { cpu.0 < MAX_CPUS }
        ensures marked { MarksStream self.old self.new stream.0 result }
        ensures known { (result ≡ Ok KnownMark) ↔ (end_of (stream_at self.old stream.0) cpu.0 ≡ Some count.0) }
        ensures first { result ≡ Ok NewMark → end_of (stream_at self.old stream.0) cpu.0 ≡ None }
        ensures ended { result ≡ Ok NewMark
            → HasEnd (stream_at self.old stream.0) (stream_at self.new stream.0) cpu.0 count.0 }
        ensures nothing_beyond { result ≡ Ok NewMark → (n : ℕ)
            → IsNotOpen (stream_at self.old stream.0) cpu.0 n → n < count.0 }
        ensures fault { IfErr result (λ fault. IsEndFault (stream_at self.old stream.0) cpu.0 count.0 fault) }
    {
        self.change(stream, cpu, Change::End(count))
    }

    /// What is below this bound of a CPU of a stream was forgotten, as the mark of a snapshot says, as with
    /// `StreamCollector::forgotten`. A stream that isn't there is made, if the bound is above 0.
    pub fn forgotten(
        &mut self,
        stream: StreamId,
        cpu: CpuId,
        bound: RecordNo,
    ) -> Result<Marked, MarkFault>
        requires { cpu.0 < MAX_CPUS }
        ensures marked { MarksStream self.old self.new stream.0 result }
        ensures raises { RaisesBound (stream_at self.old stream.0) (stream_at self.new stream.0)
            cpu.0 bound.0 result }
        ensures given_up { result ≡ Ok NewMark
            → (stream_at self.new stream.0).given_up ≡ (stream_at self.old stream.0).given_up }
        ensures fault { IfErr result (λ fault. IsBoundFault (stream_at self.old stream.0) cpu.0 bound.0 fault) }
    {
        self.change(stream, cpu, Change::Forgotten(bound))
    }

    /// Forgets what is below this bound of a CPU of the stream, if all numbers from the CPU's bound up to it are
    /// accounted for, as with `StreamCollector::forget`.
    pub fn forget(
        &mut self,
        stream: StreamId,
        cpu: CpuId,
        bound: RecordNo,
    ) -> Result<Marked, MarkFault>
        requires { cpu.0 < MAX_CPUS }
        ensures marked { MarksStream self.old self.new stream.0 result }
        ensures raises { RaisesBound (stream_at self.old stream.0) (stream_at self.new stream.0)
            cpu.0 bound.0 result }
        ensures given_up { result ≡ Ok NewMark
            → (stream_at self.new stream.0).given_up ≡ (stream_at self.old stream.0).given_up }
        ensures accounted { OnOk result (AllAccounted (stream_at self.old stream.0) cpu.0 bound.0) }
        ensures fault { IfErr result (λ fault. IsForgetFault (stream_at self.old stream.0) cpu.0 bound.0 fault) }
    {
        self.change(stream, cpu, Change::Forget(bound))
    }

    /// Raises the bound of a CPU of a stream that will bring nothing more: what is unknown below the bound is given up
    /// as undelivered, as with `StreamCollector::give_up`.
    pub fn give_up(
        &mut self,
        stream: StreamId,
        cpu: CpuId,
        bound: RecordNo,
    ) -> Result<Marked, MarkFault>
        requires { cpu.0 < MAX_CPUS }
        ensures marked { MarksStream self.old self.new stream.0 result }
        ensures raises { RaisesBound (stream_at self.old stream.0) (stream_at self.new stream.0)
            cpu.0 bound.0 result }
        ensures given_up { result ≡ Ok NewMark → GivesUpBelow (stream_at self.old stream.0)
            (stream_at self.new stream.0).given_up cpu.0 bound.0 }
        ensures fault { IfErr result (λ fault. IsBoundFault (stream_at self.old stream.0) cpu.0 bound.0 fault) }
    {
        self.change(stream, cpu, Change::GiveUp(bound))
    }

    /// The numbers of a CPU of a stream from `first` up to `end`, itself not among them, were given up as undelivered,
    /// as with `StreamCollector::mark_undelivered`. A stream that isn't there is made, if there is such a number.
    pub fn mark_undelivered(
        &mut self,
        stream: StreamId,
        cpu: CpuId,
        first: RecordNo,
        end: RecordNo,
    ) -> Result<Marked, MarkFault>
        requires { cpu.0 < MAX_CPUS }
        ensures marked { MarksStream self.old self.new stream.0 result }
        ensures known { result ≡ Ok KnownMark
            → AllGivenUp (stream_at self.old stream.0).given_up cpu.0 first.0 end.0 }
        ensures new_exactly { result ≡ Ok NewMark
            → AllGivenUp (stream_at self.old stream.0).given_up cpu.0 first.0 end.0 → ⊥ }
        ensures given_up { result ≡ Ok NewMark → GivesUp (stream_at self.old stream.0).given_up
            (stream_at self.new stream.0).given_up cpu.0 first.0 end.0 }
        ensures parcels { (stream_at self.new stream.0).parcels ≡ (stream_at self.old stream.0).parcels }
        ensures marks { (stream_at self.new stream.0).marks ≡ (stream_at self.old stream.0).marks }
        ensures within { OnOk result (first.0 < end.0 → IsUpToEnd (stream_at self.old stream.0) cpu.0 end.0) }
        ensures fault { IfErr result
            (λ fault. IsUndeliveredFault (stream_at self.old stream.0) cpu.0 first.0 end.0 fault) }
    {
        self.change(stream, cpu, Change::Undelivered(first, end))
    }

    /// Changes what is known of a stream. One that isn't there is made, if the change says something new.
    pub(crate) fn change(
        &mut self,
        stream: StreamId,
        cpu: CpuId,
        change: Change,
    ) -> Result<Marked, MarkFault>
        requires { cpu.0 < MAX_CPUS }
        ensures changed { IsChangedBy change cpu.0 (stream_at self.old stream.0) (stream_at self.new stream.0) result }
        ensures unchanged { result ≡ Ok KnownMark → self.new ≡ self.old }
        ensures there { result ≡ Ok NewMark → IsSome (known_of self.new stream.0) }
        ensures others { KeepsOthers self.old self.new stream.0 }
        ensures refused { OnErr result (self.new ≡ self.old) }
    {
        if let Some(known) = self.streams.get_mut(&stream.0) {
            return apply(known, cpu, change);
        }
        let mut first = StreamCollector::new(self.alloc);
        let marked = apply(&mut first, cpu, change)?;
        if marked == Marked::New && self.streams.insert(stream.0, first).is_err() {
            return Err(MarkFault::NoMemory);
        }
        Ok(marked)
    }
}
