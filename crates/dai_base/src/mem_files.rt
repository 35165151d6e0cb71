ghost use Rattle.std.specs.Prelude.{◌≡◌, ◌<◌, ℕ, List, Some, IsSome, IsOk, IfOk, IfSome, IfNone, OnOk, OnErr, vec_len, ◌≤◌};
ghost use Rattle.dai_base.specs.Count.{NeverFalls, RisesByOne};

use crate::fault_plan::FaultPlan;
use crate::files::{Files, ReadError};
use crate::memory::Spent;
use crate::sure_files::SureFiles;
use std::alloc::Global;

/// Files in memory whose listed reads fail. The count of faults is the number of listed reads that were
/// made.
#[derive(Drop)]
pub struct MemFiles {
    stored: SureFiles,
    plan: FaultPlan,
}

impl MemFiles {
    ghost use Rattle.dai_base.specs.SureFiles.{HoldsUnder};
    ghost use Rattle.dai_base.specs.FaultPlan.{Lists};
    ghost use Rattle.dai_base.specs.MemFiles.{held_in, listed_in, reads_in, faults_in};

    /// Holds nothing, and lists no call.
    pub fn new(alloc: Global) -> MemFiles
        ensures empty { (name : List ℕ) → held_in result name ≡ None }
        ensures unlisted { (number : ℕ) → listed_in result number ≡ None }
        ensures unread { reads_in result ≡ 0 }
    {
        MemFiles {
            stored: SureFiles::new(alloc),
            plan: FaultPlan::new(alloc),
        }
    }

    /// Holds these bytes under this name, in place of what stood there. After `Spent` the value is as it
    /// was.
    pub fn hold(&mut self, name: &str, bytes: &[u8]) -> Result<(), Spent>
        ensures ok { OnOk result (HoldsUnder (held_in self.old) (held_in self.new) name.now bytes.now) }
        ensures err { OnErr result (held_in self.new ≡ held_in self.old) }
        ensures listed { listed_in self.new ≡ listed_in self.old }
        ensures reads { reads_in self.new ≡ reads_in self.old }
    {
        self.stored.hold(name, bytes)
    }

    /// Lists the read of this number, counted from 0: it fails. The number of a read that was made already
    /// changes nothing. After `Spent` the value is as it was.
    pub fn fail_at(&mut self, call: u32) -> Result<(), Spent>
        ensures ok { OnOk result (Lists (reads_in self.old) (listed_in self.old) (listed_in self.new) call 0) }
        ensures made { call < reads_in self.old → IsOk result }
        ensures err { OnErr result (listed_in self.new ≡ listed_in self.old) }
        ensures held { held_in self.new ≡ held_in self.old }
        ensures reads { reads_in self.new ≡ reads_in self.old }
        ensures faults { faults_in self.new ≡ faults_in self.old }
    {
        self.plan.list(call, 0)
    }
}

impl Files for MemFiles {
    ghost use Rattle.dai_base.specs.Files.{IsReadOf, IsBlindRead};
    ghost use Rattle.dai_base.specs.MemFiles.{held_in, listed_in, reads_in, faults_in};

    ghost held = { λ source. Some (held_in source) };

    ghost faults = { faults_in };

    ghost reads = { reads_in };

    /// A listed read fails, and no other does.
    fn read_all(&mut self, name: &str, limit: usize) -> Result<Vec<u8>, ReadError>
        ensures told { IfSome (Some (held_in self.old)) (λ files. IsReadOf (files name.now) limit (faults_in self.old) (faults_in self.new) result) }
        ensures untold { IfNone (Some (held_in self.old)) (IsBlindRead (faults_in self.old) (faults_in self.new) result) }
        ensures within_limit { IfOk result (λ bytes. vec_len bytes ≤ limit) }
        ensures same_held { Some (held_in self.new) ≡ Some (held_in self.old) }
        ensures read_counted { RisesByOne (reads_in self.old) (reads_in self.new) }
        ensures faults_stay { NeverFalls (faults_in self.old) (faults_in self.new) }

        // A listed read fails. Each other answers as if no fault could occur, and counts none.
        ensures listed { IsSome (listed_in self.old (reads_in self.old)) → result ≡ Err ReadError.Failed }
        ensures unlisted { listed_in self.old (reads_in self.old) ≡ None → IsReadOf (held_in self.old name.now) limit 0 0 result }
        ensures same_listed { listed_in self.new ≡ listed_in self.old }
    {
        match self.plan.next() {
            Some(_) => Err(ReadError::Failed),
            None => self.stored.read_all(name, limit),
        }
    }
}
