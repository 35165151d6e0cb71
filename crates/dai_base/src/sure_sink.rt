ghost use Rattle.std.specs.Prelude.{◌≡◌, ◌-◌, ◌≤◌, [], Some, IsOk, OnOk, OnErr, length, max};
ghost use Rattle.dai_base.specs.Count.{NeverFalls, Rises};

use crate::memory::Spent;
use crate::sink::{PutError, Sink};
use std::alloc::Global;
use std::marker::Model;

/// A sink in memory whose puts never fail: the count of faults is always 0. A contract sees its bytes
/// and its spare room, which is the room that was reserved and isn't used yet.
#[derive(Drop)]
pub struct SureSink {
    buffer: Vec<u8>,
    reserved: usize,
}

impl Model for SureSink {
    ghost use Rattle.std.specs.Prelude.{◌+◌, ◌≤◌, vec_capacity, vec_len};
    ghost use Rattle.dai_base.specs.SureSink.{Store};

    ghost Value = { Store };

    ghost view = { λ sink. record { bytes = sink.buffer.items; spare = sink.reserved } };

    ghost invariant = { λ sink. vec_len sink.buffer + sink.reserved ≤ vec_capacity sink.buffer };
}

impl SureSink {
    /// Holds no bytes, and has no spare room.
    pub fn new(alloc: Global) -> SureSink
        ensures bytes { result.bytes ≡ [] }
        ensures spare { result.spare ≡ 0 }
    {
        SureSink {
            buffer: Vec::new(alloc),
            reserved: 0,
        }
    }

    /// Makes the spare room at least this many bytes. After `Spent` the value is as it was.
    pub fn reserve(&mut self, bytes: usize) -> Result<(), Spent>
        ensures room { OnOk result (self.new.spare ≡ max self.old.spare bytes) }
        ensures same_bytes { self.new.bytes ≡ self.old.bytes }
        ensures succeeds { bytes ≤ self.old.spare → IsOk result }
        ensures err { OnErr result (self.new ≡ self.old) }
    {
        self.buffer.reserve(bytes)?;
        self.reserved = self.reserved.max(bytes);
        Ok(())
    }

    /// Lowers the spare room by this many bytes, or to 0.
    pub(crate) fn forfeit(&mut self, bytes: usize)
        ensures { self.new ≡ record { bytes = self.old.bytes; spare = self.old.spare - bytes } }
    {
        self.reserved = self.reserved.saturating_sub(bytes);
    }

    /// All bytes that were written.
    pub fn bytes(&self) -> &[u8]
        ensures { result.now ≡ self.now.bytes }
    {
        self.buffer.as_slice()
    }
}

impl Sink for SureSink {
    ghost use Rattle.dai_base.specs.Sink.{IsPutOf};

    ghost written = { λ sink. Some sink.bytes };

    ghost faults = { λ _. 0 };

    /// A put within the spare room takes no memory.
    fn put(&mut self, bytes: &[u8]) -> Result<(), PutError>
        ensures written { IsPutOf bytes.now (Some self.old.bytes) (Some self.new.bytes) result }
        ensures failed { result ≡ Err PutError.Failed → Rises 0 0 }
        ensures faults_stay { NeverFalls 0 0 }

        // A put within the spare room succeeds, and each takes its length of that room.
        ensures succeeds { length bytes.now ≤ self.old.spare → IsOk result }
        ensures spare { OnOk result (self.new.spare ≡ self.old.spare - length bytes.now) }
        ensures err { OnErr result (self.new ≡ self.old) }
    {
        self.buffer.extend_from_slice(bytes)?;
        self.reserved = self.reserved.saturating_sub(bytes.len());
        Ok(())
    }
}
