//! A sink in memory with a fixed room, whose writes can be made to fail.
ghost use Rattle.std.specs.Prelude.{◌≡◌, ◌<◌, ◌≤◌, ◌-◌, ◌^◌, ◌↔◌, [], ◌∷◌, ◌++◌, Some, Ok, IsOk, IsFalse, IfOk, OnOk, OnErr, length, take, min};
ghost use Rattle.mono_io.specs.FaultPlan.{next_is_listed, succeeded, failed};
ghost use Rattle.mono_io.specs.Shelf.{moved};
ghost use Rattle.mono_io.specs.MemorySink.{free_room};

use crate::fault_plan::FaultPlan;
use crate::{Failed, Sink};
use std::alloc::{AllocError, Global};
use std::marker::Model;

/// Bytes in memory, up to a fixed room. It tells what was written.
///
/// Contracts see the bytes, the room, the most bytes that a write takes, and the plan of its faults, in which
/// the writes of a piece that isn't empty are counted.
#[derive(Drop)]
pub struct MemorySink {
    bytes: Vec<u8>,
    room: usize,
    most: usize,
    plan: FaultPlan,
}

impl Model for MemorySink {
    ghost use Rattle.std.specs.Prelude.{◌≤◌, length, vec_capacity};
    ghost use Rattle.mono_io.specs.MemorySink.{SinkState};

    ghost Value = { SinkState };

    ghost view = { λ sink. record { bytes = sink.bytes.items; room = sink.room; most = sink.most; plan = sink.plan } };

    ghost invariant = { λ sink. (1 ≤ sink.most) × (length sink.bytes.items ≤ sink.room) × (sink.room ≤ vec_capacity sink.bytes) };
}

impl MemorySink {
    /// An empty sink with room for that many bytes, whose memory is taken here.
    pub fn new(alloc: Global, room: usize) -> Result<Self, AllocError>
        ensures { IfOk result (λ sink. sink ≡ record { bytes = []; room = room; most = 2 ^ 64 - 1; plan = record { calls = 0; listed = []; faults = 0 } }) }
    {
        Ok(MemorySink {
            bytes: Vec::with_capacity(alloc, room)?,
            room,
            most: usize::MAX,
            plan: FaultPlan::new(alloc),
        })
    }

    /// Makes the write of that number fail. Writes of a piece that isn't empty are counted, from 1.
    pub fn fail_at(&mut self, call: u64) -> Result<(), AllocError>
        ensures ok { OnOk result (self.new ≡ record self.old { plan = record self.old.plan { listed = self.old.plan.listed ++ call ∷ [] } }) }
        ensures err { OnErr result (self.new ≡ self.old) }
    {
        self.plan.fail_at(call)
    }

    /// Makes each write take at most that many bytes.
    pub fn pieces(&mut self, most: usize)
        requires { 1 ≤ most }
        ensures { self.new ≡ record self.old { most = most } }
    {
        self.most = most;
    }

    /// What was written.
    pub fn bytes(&self) -> &[u8]
        ensures { result.now ≡ self.now.bytes }
    {
        &self.bytes
    }
}

impl Sink for MemorySink {
    ghost written = { λ sink. Some sink.bytes };

    ghost faults = { λ sink. sink.plan.faults };

    /// Of a piece that isn't empty it takes as many bytes as there is room for, at most `most`. It fails exactly
    /// where the call is listed or the sink is full.
    fn write(&mut self, bytes: &[u8]) -> Result<usize, Failed>
        ensures empty { bytes.now ≡ [] → (result ≡ Ok 0) × (self.new ≡ self.old) }
        ensures answer { 0 < length bytes.now → (IsOk result ↔ (IsFalse (next_is_listed self.old.plan) × (0 < free_room self.old))) }
        ensures progress { IfOk result (λ count. 0 < length bytes.now → 0 < count) }
        ensures count { IfOk result (λ count. count ≡ min (length bytes.now) (min self.old.most (free_room self.old))) }
        ensures ok { 0 < length bytes.now → OnOk result (self.new
            ≡ record self.old { bytes = self.old.bytes ++ take (moved result) bytes.now; plan = succeeded self.old.plan }) }
        ensures err { OnErr result (self.new ≡ record self.old { plan = failed self.old.plan }) }
    {
        if bytes.is_empty() {
            return Ok(0);
        }
        let is_listed = self.plan.count_call();
        let free = self.room - self.bytes.len();
        let count = bytes.len().min(self.most.min(free));
        if is_listed || count == 0 {
            return Err(self.plan.fault());
        }
        match self.bytes.extend_from_slice(&bytes[..count]) {
            Ok(()) => Ok(count),
            Err(_) => unreachable!(),
        }
    }
}
