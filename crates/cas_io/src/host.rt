//! The system's streams and clock. What they give is known to no proof: a source and a sink over
//! them tell of bytes only what the reader or the writer below tells, which is nothing for the
//! system's own.
ghost use Rattle.std.specs.Prelude.{◌≡◌, ⊤};
ghost use Rattle.cas_io.specs.Inner.Host.{reader_faults, writer_faults, writer_stalls};

use crate::clock::Clock;
use crate::fault::Failed;
use crate::sink::Sink;
use crate::source::Source;
use std::io::{Read, Write};
use std::rt;
use std::sync::atomic::{AtomicU64, Ordering};
use std::time::{SystemTime, UNIX_EPOCH};

/// A source over any reader.
#[derive(Drop)]
pub struct StdSource<R> {
    reader: R,
    faults: u64,
}

impl<R: Read> StdSource<R> {
    /// A source that has not failed.
    pub fn new(reader: R) -> Self
        ensures left { ⟦<StdSource<R> as Source>⟧.left result ≡ R.remaining reader }
        ensures faults { reader_faults result ≡ 0 }
    {
        StdSource { reader, faults: 0 }
    }

    /// How often it has failed.
    pub fn faults(&self) -> u64
        ensures { result ≡ reader_faults self.now }
    {
        self.faults
    }
}

impl<R: Read> Source for StdSource<R> {
    ghost left = { λ s. R.remaining s.reader };

    ghost faults = { λ s. reader_faults s };

    fn read(&mut self, into: &mut [u8]) -> Result<usize, Failed> {
        match self.reader.read(into) {
            Ok(count) => Ok(count),
            Err(_) => {
                self.faults = self.faults.saturating_add(1);
                Err(Failed)
            }
        }
    }
}

/// A sink over any writer.
#[derive(Drop)]
pub struct StdSink<W> {
    writer: W,
    faults: u64,
    stalls: u64,
}

impl<W: Write> StdSink<W> {
    /// A sink that has neither failed nor stalled.
    pub fn new(writer: W) -> Self
        ensures took { ⟦<StdSink<W> as Sink>⟧.took result ≡ W.contents writer }
        ensures faults { writer_faults result ≡ 0 }
        ensures stalls { writer_stalls result ≡ 0 }
    {
        StdSink {
            writer,
            faults: 0,
            stalls: 0,
        }
    }

    /// How often it has failed.
    pub fn faults(&self) -> u64
        ensures { result ≡ writer_faults self.now }
    {
        self.faults
    }

    /// How often it took nothing of a piece that isn't empty.
    pub fn stalls(&self) -> u64
        ensures { result ≡ writer_stalls self.now }
    {
        self.stalls
    }
}

impl<W: Write> Sink for StdSink<W> {
    ghost took = { λ s. W.contents s.writer };

    ghost faults = { λ s. writer_faults s };

    ghost stalls = { λ s. writer_stalls s };

    fn write(&mut self, bytes: &[u8]) -> Result<usize, Failed> {
        match self.writer.write(bytes) {
            Ok(count) => {
                if count == 0 && !bytes.is_empty() {
                    self.stalls = self.stalls.saturating_add(1);
                }
                Ok(count)
            }
            Err(_) => {
                self.faults = self.faults.saturating_add(1);
                Err(Failed)
            }
        }
    }
}

/// The system's clock, which may give any reading. Where the system tells no time, or one that
/// doesn't fit, it reads 0 and counts a fault.
#[derive(Drop)]
pub struct SystemClock<R> {
    runtime: R,
    faults: AtomicU64,
}

impl<R: rt::Clock> SystemClock<R> {
    /// A clock that has not failed.
    pub fn new(runtime: R) -> Self {
        SystemClock {
            runtime,
            faults: AtomicU64::new(0),
        }
    }

    /// How often the system told no time, as far as threads that read it at once have counted.
    pub fn faults(&self) -> u64 {
        self.faults.load(Ordering::SeqCst)
    }

    // The microseconds since the start of 1970, where the system tells them.
    fn micros(&self) -> Option<i64> {
        let now = SystemTime::now(&self.runtime).ok()?;
        let since = now.duration_since(UNIX_EPOCH).ok()?;
        i64::try_from(since.as_micros()).ok()
    }
}

impl<R: rt::Clock> Clock for SystemClock<R> {
    ghost may_give = { λ _ _. ⊤ };

    fn read(&self) -> i64 {
        match self.micros() {
            Some(micros) => micros,
            None => {
                self.faults.fetch_add(1, Ordering::SeqCst);
                0
            }
        }
    }
}
