//! The host's files.
ghost use Rattle.std.specs.Prelude.{◌≤◌, vec_len, IfOk};

use dai_base::{Files, ReadError};
use std::alloc::Global;
use std::fs;
use std::io::{ErrorKind, Read};
use std::rt::Files as FileSystem;

/// How many bytes are asked for at a time.
const CHUNK: usize = 4096;

/// The host's files, with the counts of reads and of faults, each of which stays at its last value. Nothing is
/// told of what is held.
#[derive(Drop)]
pub struct HostFiles<'a, R> {
    rt: &'a R,
    alloc: Global,
    reads: u64,
    faults: u64,
}

impl<'a, R: FileSystem> HostFiles<'a, R> {
    /// No read was made yet.
    pub fn new(rt: &'a R, alloc: Global) -> HostFiles<'a, R> {
        HostFiles {
            rt,
            alloc,
            reads: 0,
            faults: 0,
        }
    }
}

impl<R: FileSystem> Files for HostFiles<'_, R> {
    ghost use Rattle.std.specs.Prelude.{None};

    ghost held = { λ _. None };

    ghost faults = { λ files. files.faults };

    ghost reads = { λ files. files.reads };

    fn read_all(&mut self, name: &str, limit: usize) -> Result<Vec<u8>, ReadError> {
        self.reads = self.reads.saturating_add(1);
        let after_a_fault = self.faults.saturating_add(1);
        match read_at_most(self.rt, self.alloc, name, limit) {
            Err(ReadError::Missing) => {
                self.faults = after_a_fault;
                Err(ReadError::Missing)
            }
            Err(ReadError::Failed) => {
                self.faults = after_a_fault;
                Err(ReadError::Failed)
            }
            Err(ReadError::TooLong) => Err(ReadError::TooLong),
            Err(ReadError::Spent) => Err(ReadError::Spent),
            Ok(bytes) => Ok(bytes),
        }
    }
}

/// The bytes of the file. At most one byte more than the limit is read.
fn read_at_most<R: FileSystem>(
    rt: &R,
    alloc: Global,
    name: &str,
    limit: usize,
) -> Result<Vec<u8>, ReadError>
    ensures { IfOk result (λ bytes. vec_len bytes ≤ limit) }
{
    let mut file = match fs::open(rt, name) {
        Ok(file) => file,
        Err(error) if error.kind() == ErrorKind::NotFound => return Err(ReadError::Missing),
        Err(_) => return Err(ReadError::Failed),
    };
    let mut bytes = Vec::new(alloc);
    let mut buffer = [0u8; 4096];
    for _ in 0..u64::MAX {
        let room = (limit - bytes.len()).saturating_add(1).min(CHUNK);
        match file.read(&mut buffer[..room]) {
            Ok(0) => break,
            Ok(count) => {
                bytes.extend_from_slice(&buffer[..count])?;
                if bytes.len() > limit {
                    return Err(ReadError::TooLong);
                }
            }
            Err(_) => return Err(ReadError::Failed),
        }
    }
    Ok(bytes)
}
