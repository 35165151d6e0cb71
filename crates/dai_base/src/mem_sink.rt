ghost use Rattle.std.specs.Prelude.{◌≡◌, ◌≢◌, ◌-◌, ◌<◌, ◌≤◌, ◌⊎◌, ℕ, [], ◌++◌, Some, None, Ok, Err, IsOk, OnOk, OnErr, length, max, take};
ghost use Rattle.dai_base.specs.Count.{NeverFalls, Rises, RisesByOne};

use crate::fault_plan::FaultPlan;
use crate::memory::Spent;
use crate::sink::{PutError, Sink};
use crate::sure_sink::SureSink;
use std::alloc::Global;

/// A sink in memory whose listed puts fail. The count of faults is the number of listed puts that were
/// made.
#[derive(Drop)]
pub struct MemSink {
    stored: SureSink,
    plan: FaultPlan,
}

impl MemSink {
    ghost use Rattle.dai_base.specs.FaultPlan.{Lists};
    ghost use Rattle.dai_base.specs.MemSink.{bytes_in, spare_in, listed_in, puts_in, faults_in};

    /// Holds no bytes, has no spare room, and lists no put.
    pub fn new(alloc: Global) -> MemSink
        ensures bytes { bytes_in result ≡ [] }
        ensures spare { spare_in result ≡ 0 }
        ensures unlisted { (number : ℕ) → listed_in result number ≡ None }
        ensures unput { puts_in result ≡ 0 }
    {
        MemSink {
            stored: SureSink::new(alloc),
            plan: FaultPlan::new(alloc),
        }
    }

    /// Makes the spare room at least this many bytes. After `Spent` the value is as it was.
    pub fn reserve(&mut self, bytes: usize) -> Result<(), Spent>
        ensures room { OnOk result (spare_in self.new ≡ max (spare_in self.old) bytes) }
        ensures same_bytes { bytes_in self.new ≡ bytes_in self.old }
        ensures succeeds { bytes ≤ spare_in self.old → IsOk result }
        ensures err { OnErr result (spare_in self.new ≡ spare_in self.old) }
        ensures listed { listed_in self.new ≡ listed_in self.old }
        ensures puts { puts_in self.new ≡ puts_in self.old }
    {
        self.stored.reserve(bytes)
    }

    /// Lists the put of this number, counted from 0: it writes its first `taken` bytes, or all where it has
    /// fewer, and fails. The last listing of a number counts. The number of a put that was made already
    /// changes nothing. After `Spent` the value is as it was.
    pub fn fail_at(&mut self, call: u32, taken: usize) -> Result<(), Spent>
        ensures ok { OnOk result (Lists (puts_in self.old) (listed_in self.old) (listed_in self.new) call taken) }
        ensures made { call < puts_in self.old → IsOk result }
        ensures err { OnErr result (listed_in self.new ≡ listed_in self.old) }
        ensures same_bytes { bytes_in self.new ≡ bytes_in self.old }
        ensures same_spare { spare_in self.new ≡ spare_in self.old }
        ensures puts { puts_in self.new ≡ puts_in self.old }
        ensures faults { faults_in self.new ≡ faults_in self.old }
    {
        self.plan.list(call, taken)
    }

    /// All bytes that were written.
    pub fn bytes(&self) -> &[u8]
        ensures { result.now ≡ bytes_in self.now }
    {
        self.stored.bytes()
    }
}

impl Sink for MemSink {
    ghost use Rattle.dai_base.specs.Sink.{IsPutOf};
    ghost use Rattle.dai_base.specs.MemSink.{bytes_in, spare_in, listed_in, puts_in, faults_in, FailsAfter};

    ghost written = { λ sink. Some (bytes_in sink) };

    ghost faults = { faults_in };

    /// A listed put fails, and no other does. A put within the spare room takes no memory.
    fn put(&mut self, bytes: &[u8]) -> Result<(), PutError>
        ensures written { IsPutOf bytes.now (Some (bytes_in self.old)) (Some (bytes_in self.new)) result }
        ensures failed { result ≡ Err PutError.Failed → Rises (faults_in self.old) (faults_in self.new) }
        ensures faults_stay { NeverFalls (faults_in self.old) (faults_in self.new) }

        // A listed put fails after its first bytes, and no other fails.
        ensures listed { (taken : ℕ) → listed_in self.old (puts_in self.old) ≡ Some taken → FailsAfter (take taken bytes.now) (bytes_in self.old) (bytes_in self.new) result }
        ensures unlisted { listed_in self.old (puts_in self.old) ≡ None → result ≢ Err PutError.Failed }

        // A put within the spare room never wants memory, and takes its length of that room.
        ensures within { length bytes.now ≤ spare_in self.old → result ≢ Err PutError.Spent }
        ensures spare { length bytes.now ≤ spare_in self.old → spare_in self.new ≡ spare_in self.old - length bytes.now }
        ensures spent { result ≡ Err PutError.Spent → spare_in self.new ≡ spare_in self.old }
        ensures put_counted { RisesByOne (puts_in self.old) (puts_in self.new) }
        ensures same_listed { listed_in self.new ≡ listed_in self.old }
    {
        let Some(taken) = self.plan.next() else {
            return self.stored.put(bytes);
        };
        let (part, rest) = bytes.split_at(taken.min(bytes.len()));
        match self.stored.put(part) {
            Ok(()) => {
                self.stored.forfeit(rest.len());
                Err(PutError::Failed)
            }
            Err(error) => Err(error),
        }
    }
}
