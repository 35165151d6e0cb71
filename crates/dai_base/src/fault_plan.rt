//! Which calls fail.
ghost use Rattle.std.specs.Prelude.{◌≡◌, ◌+◌, ◌<◌, ◌≤◌, ℕ, IsOk, OnOk, OnErr, is_some, if◌then◌else◌};
ghost use Rattle.dai_base.specs.Count.{RisesByOne, last_count};

use crate::memory::Spent;
use std::alloc::Global;
use std::collections::BTreeMap;

/// The numbers of the calls that fail, each with how many bytes it takes before it fails, and how many calls
/// were made. Calls are numbered from 0.
#[derive(Drop)]
pub struct FaultPlan {
    listed: BTreeMap<u32, usize>,
    calls: u64,
}

impl FaultPlan {
    ghost use Rattle.dai_base.specs.FaultPlan.{listed_of, calls_of, faults_of, Lists};

    /// No call is listed, and none was made.
    pub fn new(alloc: Global) -> FaultPlan
        ensures unlisted { (number : ℕ) → listed_of result number ≡ None }
        ensures unmade { calls_of result ≡ 0 }
    {
        FaultPlan {
            listed: BTreeMap::new(alloc),
            calls: 0,
        }
    }

    /// Lists the call of this number, to fail after `taken` bytes, in place of what was listed for it. The
    /// number of a call that was made already changes nothing. After `Spent` the value is as it was.
    pub fn list(&mut self, call: u32, taken: usize) -> Result<(), Spent>
        ensures ok { OnOk result (Lists (calls_of self.old) (listed_of self.old) (listed_of self.new) call taken) }
        ensures made { call < calls_of self.old → IsOk result }
        ensures err { OnErr result (listed_of self.new ≡ listed_of self.old) }
        ensures calls { calls_of self.new ≡ calls_of self.old }
        ensures faults { faults_of self.new ≡ faults_of self.old }
    {
        if u64::from(call) >= self.calls {
            self.listed.insert(call, taken)?;
        }
        Ok(())
    }

    /// Counts a call. `Some` comes where it is listed, with how many bytes it takes.
    pub fn next(&mut self) -> Option<usize>
        ensures listed { result ≡ listed_of self.old (calls_of self.old) }
        ensures same { listed_of self.new ≡ listed_of self.old }
        ensures counted { RisesByOne (calls_of self.old) (calls_of self.new) }
        ensures faults { faults_of self.new ≡ faults_of self.old + (if is_some result then 1 else 0) }
        ensures bounded { faults_of self.new ≤ last_count }
    {
        let number = self.calls;
        self.calls = number.saturating_add(1);
        let Ok(call) = u32::try_from(number) else {
            return None;
        };
        self.listed.get(&call).copied()
    }
}
