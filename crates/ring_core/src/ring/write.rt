//! A record that is written at once.
use crate::ring::Core;
use nested_writer::Wrote;
use ring_frames::WriteKind;

impl Core {
    ghost use Rattle.std.specs.Prelude.{◌≡◌, ◌↔◌, length};
    ghost use Rattle.ring_frames.specs.declared.frames.write.WriteKind.TheVariants.{Any};
    ghost use Rattle.nested_writer.specs.AtOnce.{FitsAbove};
    ghost use Rattle.ring_frames.specs.Answers.{KeepsPayloads};
    ghost use Rattle.ring_core.specs.AtOnce.{MayWriteAlone, WritesAlone};
    ghost use Rattle.ring_core.specs.Above.{WritesAbove};
    ghost use Rattle.ring_core.specs.Steps.{IsReachedCore};

    /// Writes a record of this moment and payload in one call, as its frame's four steps would, if no frame is on the
    /// stack, a push would not be refused, the record fits in the tail, and the reader has no new wish. In all other
    /// cases it answers `Nothing`, and nothing changes.
    #[inline(always)]
    pub fn write(&mut self, moment: u64, payload: &[u8]) -> Wrote
        requires ring { IsReachedCore self.old }
        ensures may { result ≡ Wrote.Record ↔ MayWriteAlone self.old moment (length payload.now) }
        ensures wrote { result ≡ Wrote.Record → WritesAlone self.old moment payload.now self.new }
        ensures nothing { result ≡ Wrote.Nothing → self.new ≡ self.old }
    {
        if !self.frames.is_empty() {
            return Wrote::Nothing;
        }
        match self.write_at_once(WriteKind::Short, moment, payload) {
            Wrote::Record => Wrote::Record,
            Wrote::Nothing => self.write_rarely(moment, payload),
        }
    }

    /// Writes a record of this moment and payload in one call, as its frame's three steps would, if a frame is on the
    /// stack, a push would not be refused, and the record fits in the tail. The frames are those of before, and what
    /// they reserved is as it was. In all other cases it answers `Nothing`, and nothing changes. A frame above others
    /// doesn't look for the reader's wish, so nor does this.
    #[inline(always)]
    pub fn write_above(&mut self, moment: u64, payload: &[u8]) -> Wrote
        requires ring { IsReachedCore self.old }
        ensures may { result ≡ Wrote.Record ↔ FitsAbove self.old.stack moment (length payload.now) }
        ensures wrote { result ≡ Wrote.Record → WritesAbove self.old moment payload.now self.new }
        ensures nothing { result ≡ Wrote.Nothing → self.new ≡ self.old }
        ensures payloads { KeepsPayloads self.old.stack self.new.stack }
    {
        self.frames.write_above(moment, payload)
    }

    /// `write`, for a record that isn't short. It is called rarely, so it isn't in line.
    #[inline(never)]
    fn write_rarely(&mut self, moment: u64, payload: &[u8]) -> Wrote
        requires ring { IsReachedCore self.old }
        ensures may { result ≡ Wrote.Record ↔ MayWriteAlone self.old moment (length payload.now) }
        ensures wrote { result ≡ Wrote.Record → WritesAlone self.old moment payload.now self.new }
        ensures nothing { result ≡ Wrote.Nothing → self.new ≡ self.old }
    {
        self.write_at_once(WriteKind::Any, moment, payload)
    }

    /// `write`, for records of this kind.
    #[inline(always)]
    fn write_at_once(&mut self, kind: WriteKind, moment: u64, payload: &[u8]) -> Wrote
        requires ring { IsReachedCore self.old }
        ensures may { result ≡ Wrote.Record → MayWriteAlone self.old moment (length payload.now) }
        ensures any { kind ≡ Any → MayWriteAlone self.old moment (length payload.now) → result ≡ Wrote.Record }
        ensures wrote { result ≡ Wrote.Record → WritesAlone self.old moment payload.now self.new }
        ensures nothing { result ≡ Wrote.Nothing → self.new ≡ self.old }
    {
        if self.wish > self.frames.done() {
            return Wrote::Nothing;
        }
        self.frames.write(kind, moment, payload)
    }
}
