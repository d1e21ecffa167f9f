// A sink in memory, some of whose writes fail.
ghost use Rattle.std.specs.Prelude.{◌≡◌, []};

use crate::counted::failed;
use crate::fail_plan::FailPlan;
use crate::fault::Fault;
use crate::sink::Sink;
use std::alloc::Global;

/// A sink that holds what is written to it, and tells it. It counts its writes.
#[derive(Drop)]
pub struct MemSink {
    written: Vec<u8>,
    plan: FailPlan,
    faults: u64,
}

impl MemSink {
    ghost use Rattle.nr_outside.specs.MemSink.{mem_sink_bytes, mem_sink_writes, mem_sink_fails};

    /// An empty sink. `fails` has the numbers, from 1, of the writes that are to fail.
    pub fn new(alloc: Global, fails: Vec<u64>) -> Self
        ensures bytes { mem_sink_bytes result ≡ [] }
        ensures writes { mem_sink_writes result ≡ 0 }
        ensures faults { ⟦<MemSink as Sink>⟧.faults result ≡ 0 }
        ensures fails { mem_sink_fails result ≡ fails.items }
    {
        MemSink {
            written: Vec::new(alloc),
            plan: FailPlan::new(fails),
            faults: 0,
        }
    }

    /// How often it was written to.
    pub fn writes(&self) -> u64
        ensures { result ≡ mem_sink_writes self.now }
    {
        self.plan.calls()
    }

    /// What was written.
    pub fn bytes(&self) -> &[u8]
        ensures { result.now ≡ mem_sink_bytes self.now }
    {
        &self.written
    }
}

impl Sink for MemSink {
    ghost use Rattle.std.specs.Prelude.{◌≡◌, ◌++◌, OnOk, IsErrOf, IsTrue};
    ghost use Rattle.nr_outside.specs.Bytes.{AddsPart};
    ghost use Rattle.nr_outside.specs.Causes.{HasCause};
    ghost use Rattle.nr_outside.specs.FailPlan.{is_planned, IsCounted};
    ghost use Rattle.nr_outside.specs.MemSink.{mem_sink_bytes};

    ghost Tells = { Unit {0} };

    ghost bytes = { λ s. s.written.items };

    ghost writes = { λ s. s.plan.calls };

    ghost faults = { λ s. s.faults };

    /// It is `Failed` exactly where the call is to fail.
    fn write(&mut self, piece: &[u8]) -> Result<(), Fault>
        ensures ok { OnOk result (mem_sink_bytes self.new ≡ mem_sink_bytes self.old ++ piece.now) }
        ensures part { AddsPart (mem_sink_bytes self.old) (mem_sink_bytes self.new) piece.now }
        ensures cause { HasCause self.old.faults self.new.faults result }
        ensures planned { IsTrue (is_planned self.old.plan) → IsErrOf result Fault.Failed }
        ensures failed { IsErrOf result Fault.Failed → IsTrue (is_planned self.old.plan) }
        ensures counted { IsCounted self.old.plan self.new.plan }
    {
        if self.plan.is_next_to_fail() {
            return Err(failed(&mut self.faults));
        }
        self.written.extend_from_slice(piece)?;
        Ok(())
    }
}
