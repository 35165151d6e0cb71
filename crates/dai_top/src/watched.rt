//! A sink that counts the puts that it sees.
use dai_base::{MemSink, PutError, Sink};

/// It does as the sink in it does.
#[derive(Drop)]
pub struct Watched {
    pub sink: MemSink,
    pub puts: u64,
}

impl Sink for Watched {
    ghost use Rattle.std.specs.Prelude.{Some};
    ghost use Rattle.dai_base.specs.MemSink.{bytes_in, faults_in};

    ghost written = { λ watched. Some (bytes_in watched.sink) };

    ghost faults = { λ watched. faults_in watched.sink };

    fn put(&mut self, bytes: &[u8]) -> Result<(), PutError> {
        self.puts = self.puts.saturating_add(1);
        self.sink.put(bytes)
    }
}
