ghost use Rattle.std.specs.Prelude.{◌≡◌, ℕ, List, Some, OnOk, OnErr};

use crate::files::{Files, ReadError};
use crate::memory::Spent;
use std::alloc::{AllocError, Global};
use std::collections::BTreeMap;

/// Files in memory whose reads never fail: the count of faults is always 0.
#[derive(Drop)]
pub struct SureFiles {
    alloc: Global,
    files: BTreeMap<String, Vec<u8>>,
    calls: u64,
}

impl SureFiles {
    ghost use Rattle.dai_base.specs.SureFiles.{HoldsUnder, holdings_of, reads_of};

    /// Holds nothing.
    pub fn new(alloc: Global) -> SureFiles
        ensures empty { (name : List ℕ) → holdings_of result name ≡ None }
        ensures unread { reads_of result ≡ 0 }
    {
        SureFiles {
            alloc,
            files: BTreeMap::new(alloc),
            calls: 0,
        }
    }

    /// Holds these bytes under this name, in place of what stood there. After `Spent` the value is as
    /// it was.
    pub fn hold(&mut self, name: &str, bytes: &[u8]) -> Result<(), Spent>
        ensures ok { OnOk result (HoldsUnder (holdings_of self.old) (holdings_of self.new) name.now bytes.now) }
        ensures err { OnErr result (holdings_of self.new ≡ holdings_of self.old) }
        ensures reads { reads_of self.new ≡ reads_of self.old }
    {
        let name = String::from_str(self.alloc, name)?;
        let bytes = Vec::from_slice(self.alloc, bytes)?;
        self.files.insert(name, bytes)?;
        Ok(())
    }
}

impl Files for SureFiles {
    ghost use Rattle.dai_base.specs.SureFiles.{holdings_of, reads_of};

    ghost held = { λ source. Some (holdings_of source) };

    ghost faults = { λ _. 0 };

    ghost reads = { reads_of };

    fn read_all(&mut self, name: &str, limit: usize) -> Result<Vec<u8>, ReadError> {
        self.calls = self.calls.saturating_add(1);
        let Some(bytes) = self.files.get(name) else {
            return Err(ReadError::Missing);
        };
        if bytes.len() > limit {
            return Err(ReadError::TooLong);
        }
        Ok(Vec::from_slice(self.alloc, bytes.as_slice())?)
    }
}
