//! The calls of one line, with a gate that is asked after each fill that they close.
use crate::writers::gate::{Gate, Who};
use crate::writers::writer::LineWriter;
use trace_model::{CpuId, FillNo};

impl<'a> LineWriter<'a> {
    ghost use Rattle.std.specs.Prelude.{◌≡◌, ◌≢◌, ◌≤◌, [], OnOk};
    ghost use Rattle.text_model.specs.Script.{begin_frame, step_frame, finish_frame, write, close};
    ghost use Rattle.ring_shared.specs.Calls.{IsWriter};
    ghost use Rattle.trace_run.specs.writers.Asking.{Asks, HasAsked};
    ghost use Rattle.trace_run.specs.writers.LineWriters.{IsLineWriter, CallsTop, MakesLine, FinishesRest};

    /// Asks the gate for each fill from the one with the number `done` on that is closed. The gate gets one more than
    /// the number of that fill. What it got where it is shut is answered.
    #[inline(always)]
    fn pass_closed<G: Gate>(&self, gate: &G, cpu: CpuId, done: u64) -> Result<(), FillNo>
        requires is { IsWriter self.now.writer }
        requires forward { done ≤ self.now.writer.part.done }
        ensures { HasAsked G.answers gate.now cpu.0 done self.now.writer.part.done result }
    {
        for closed in done..self.writer.done() {
            let fill = FillNo(closed + 1);
            if !gate.pass(Who::Writer, cpu, fill) {
                return Err(fill);
            }
        }
        Ok(())
    }

    /// One call for the frame on top. If it closes a fill, the gate is asked. What it got if it is shut is answered.
    pub(crate) fn call_gated<G: Gate>(&mut self, gate: &G, cpu: CpuId) -> Result<(), FillNo>
        requires is { IsLineWriter self.old }
        requires top { self.old.writer.part.frames ≢ [] }
        ensures calls { CallsTop self.old self.new }
        ensures gate { Asks G.answers gate.now cpu.0 self.old self.new result }
    {
        let done = self.writer.done();
        self.call_top();
        self.pass_closed(gate, cpu, done)
    }

    /// A line `s`: `count` calls for the frame on top, or fewer if it is popped before that.
    pub(crate) fn step<G: Gate>(&mut self, gate: &G, cpu: CpuId, count: u64) -> Result<(), FillNo>
        requires is { IsLineWriter self.old }
        requires some { 1 ≤ count }
        ensures line { OnOk result (MakesLine (step_frame cpu.0 count) self.old self.new) }
        ensures gate { Asks G.answers gate.now cpu.0 self.old self.new result }
    {
        let depth = self.depth();
        if depth == 0 {
            return Ok(());
        }
        let mut made = 0;
        while made < count && self.depth() == depth {
            self.call_gated(gate, cpu)?;
            made += 1;
        }
        Ok(())
    }

    /// A line `f`: calls for the frame on top until it is popped.
    pub(crate) fn finish<G: Gate>(&mut self, gate: &G, cpu: CpuId) -> Result<(), FillNo>
        requires { IsLineWriter self.old }
        ensures line { OnOk result (MakesLine (finish_frame cpu.0) self.old self.new) }
        ensures gate { Asks G.answers gate.now cpu.0 self.old self.new result }
    {
        let depth = self.depth();
        if depth == 0 {
            return Ok(());
        }
        loop {
            self.call_gated(gate, cpu)?;
            if self.depth() != depth {
                return Ok(());
            }
        }
    }

    /// A line `b`: a frame is pushed.
    pub(crate) fn begin(&mut self, cpu: CpuId, moment: u64, payload: &'a [u8])
        requires { IsLineWriter self.old }
        ensures line { MakesLine (begin_frame cpu.0 moment payload.now) self.old self.new }
        ensures done { self.new.writer.part.done ≡ self.old.writer.part.done }
    {
        let _cpu = cpu;
        let _pushed = self.push(moment, payload);
    }

    /// A line `w`: a record is written whole.
    #[inline(always)]
    pub(crate) fn write<G: Gate>(
        &mut self,
        gate: &G,
        cpu: CpuId,
        moment: u64,
        payload: &[u8],
    ) -> Result<(), FillNo>
        requires { IsLineWriter self.old }
        ensures line { OnOk result (MakesLine (write cpu.0 moment payload.now) self.old self.new) }
        ensures gate { Asks G.answers gate.now cpu.0 self.old self.new result }
    {
        let done = self.writer.done();
        self.write_whole(moment, payload);
        self.pass_closed(gate, cpu, done)
    }

    /// A line `c`: a close frame is pushed and finished.
    pub(crate) fn close<G: Gate>(&mut self, gate: &G, cpu: CpuId) -> Result<(), FillNo>
        requires { IsLineWriter self.old }
        ensures line { OnOk result (MakesLine (close cpu.0) self.old self.new) }
        ensures gate { Asks G.answers gate.now cpu.0 self.old self.new result }
    {
        if !self.push_close() {
            return Ok(());
        }
        self.finish(gate, cpu)
    }

    /// The frames that are left are finished, the top one first.
    pub(crate) fn finish_rest<G: Gate>(&mut self, gate: &G, cpu: CpuId) -> Result<(), FillNo>
        requires { IsLineWriter self.old }
        ensures rest { OnOk result (FinishesRest self.old self.new) }
        ensures gate { Asks G.answers gate.now cpu.0 self.old self.new result }
    {
        while self.depth() > 0 {
            self.finish(gate, cpu)?;
        }
        Ok(())
    }
}
