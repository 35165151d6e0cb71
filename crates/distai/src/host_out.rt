//! The host's streams.
use dai_base::{PutError, Sink};
use std::io::Write;

/// A stream of the host, with the count of faults, which stays at its last value. Nothing is told of what was
/// written.
#[derive(Drop)]
pub struct HostOut<W> {
    writer: W,
    faults: u64,
}

impl<W: Write> HostOut<W> {
    /// No fault occurred yet.
    pub fn new(writer: W) -> HostOut<W> {
        HostOut { writer, faults: 0 }
    }
}

impl<W: Write> Sink for HostOut<W> {
    ghost use Rattle.std.specs.Prelude.{None};

    ghost written = { λ _. None };

    ghost faults = { λ out. out.faults };

    /// Each put ends with a flush. A write that takes nothing is a fault, and so is a flush that fails.
    fn put(&mut self, bytes: &[u8]) -> Result<(), PutError> {
        let after_a_fault = self.faults.saturating_add(1);
        if write_whole(&mut self.writer, bytes) {
            return Ok(());
        }
        self.faults = after_a_fault;
        Err(PutError::Failed)
    }
}

/// Whether all bytes were written and flushed.
fn write_whole<W: Write>(writer: &mut W, bytes: &[u8]) -> bool {
    let mut rest = bytes;
    while !rest.is_empty() {
        match writer.write(rest) {
            Ok(count) if count > 0 => {
                let (_, left) = rest.split_at(count);
                rest = left;
            }
            _ => return false,
        }
    }
    writer.flush().is_ok()
}
