//! A source and a sink in memory, which fail and stop short by a plan.
ghost use Rattle.std.specs.Prelude.{◌≡◌, ◌==◌, IsTrue, OnOk, ◌≤◌, ◌<◌, ◌-◌, ℕ, Some, None, Ok, Err, [], length, take, drop, min, vec_len, IfSome, IfOk, OnErr};
ghost use Rattle.std.specs.List.{list_any};
ghost use Rattle.std.specs.Io.{ReadsAtMost, WritesAtMost};
ghost use Rattle.std.specs.Io.KnownBytes.{ReadConsumes, WriteAppends};
ghost use Rattle.cas_io.specs.Causes.{Rose};
ghost use Rattle.cas_io.specs.Inner.Plans.{next_piece, AsPlanned, one_more};

use crate::fault::Failed;
use crate::sink::Sink;
use crate::source::Source;
use std::alloc::Global;

/// A source over bytes in memory.
#[derive(Drop)]
pub struct MemSource {
    bytes: Vec<u8>,
    given: usize,
    ghost in_range: { given ≤ vec_len bytes },
    fails_after: Option<u64>,
    at_most: u64,
    faults: u64,
}

impl MemSource {
    ghost use Rattle.cas_io.specs.Inner.Memory.{source_given, source_fails_after, source_at_most};

    /// Gives the bytes, as many at once as there is room for, and never fails.
    pub fn new(bytes: Vec<u8>) -> Self
        ensures left { ⟦<MemSource as Source>⟧.left result ≡ Some bytes.items }
        ensures faults { ⟦<MemSource as Source>⟧.faults result ≡ 0 }
    {
        MemSource::with_plan(bytes, None, u64::MAX)
    }

    /// Gives the bytes, at most `at_most` of them at once and at least one. After `fails_after` of
    /// them each read fails.
    pub fn with_plan(bytes: Vec<u8>, fails_after: Option<u64>, at_most: u64) -> Self
        ensures left { ⟦<MemSource as Source>⟧.left result ≡ Some bytes.items }
        ensures faults { ⟦<MemSource as Source>⟧.faults result ≡ 0 }
        ensures fails_after { source_fails_after result ≡ fails_after }
        ensures at_most { source_at_most result ≡ at_most }
    {
        MemSource {
            bytes,
            given: 0,
            fails_after,
            at_most,
            faults: 0,
        }
    }

    /// How often it has failed.
    pub fn faults(&self) -> u64
        ensures { result ≡ ⟦<MemSource as Source>⟧.faults self.now }
    {
        self.faults
    }

    // How many bytes the next read may give; None where it fails.
    fn next_piece(&self) -> Option<u64>
        ensures { result ≡ next_piece (source_fails_after self.now) (source_at_most self.now) (source_given self.now) }
    {
        let given = self.given as u64;
        let most = self.at_most.max(1);
        match self.fails_after {
            None => Some(most),
            Some(fails_after) if fails_after <= given => None,
            Some(fails_after) => Some(most.min(fails_after - given)),
        }
    }
}

// Copies as many bytes as there are, have room and are allowed.
fn copy_front(from: &[u8], into: &mut [u8], most: u64) -> usize
    ensures count { result ≡ min most (min (length from.now) (length into.old)) }
    ensures bytes { take result into.new ≡ take result from.now }
{
    let count = most.min(from.len().min(into.len()) as u64) as usize;
    into[..count].copy_from_slice(&from[..count]);
    count
}

impl Source for MemSource {
    ghost use Rattle.cas_io.specs.Inner.Memory.{source_left, source_given, source_fails_after, source_at_most, source_faults};

    ghost left = { λ s. Some (source_left s) };

    ghost faults = { λ s. source_faults s };

    fn read(&mut self, into: &mut [u8]) -> Result<usize, Failed>
        ensures bound { ReadsAtMost result into.new }
        ensures bytes { ReadConsumes (Some (source_left self.old)) (Some (source_left self.new)) result into.new }
        ensures kept { source_faults self.old ≤ source_faults self.new }
        ensures cause { OnErr result (Rose (source_faults self.old) (source_faults self.new)) }
        ensures planned { AsPlanned (next_piece (source_fails_after self.old) (source_at_most self.old) (source_given self.old))
            (min (length (source_left self.old)) (length into.old)) result }
        ensures counted { OnErr result (source_faults self.new ≡ one_more (source_faults self.old)) }
        ensures plan { (source_fails_after self.new ≡ source_fails_after self.old) × (source_at_most self.new ≡ source_at_most self.old) }
    {
        let Some(most) = self.next_piece() else {
            self.faults = self.faults.saturating_add(1);
            return Err(Failed);
        };
        let count = copy_front(&self.bytes[self.given..], into, most);
        self.given += count;
        Ok(count)
    }
}

/// A sink that keeps what it takes.
#[derive(Drop)]
pub struct MemSink {
    taken: Vec<u8>,
    failing: Vec<u64>,
    at_most: u64,
    calls: u64,
    faults: u64,
    stalls: u64,
}

impl MemSink {
    ghost use Rattle.cas_io.specs.Inner.Memory.{sink_failing, sink_at_most, sink_calls};

    /// Takes whole pieces, and fails only when it runs out of memory.
    pub fn new(alloc: Global) -> Self
        ensures took { ⟦<MemSink as Sink>⟧.took result ≡ Some [] }
        ensures faults { ⟦<MemSink as Sink>⟧.faults result ≡ 0 }
        ensures stalls { ⟦<MemSink as Sink>⟧.stalls result ≡ 0 }
    {
        MemSink::with_plan(alloc, Vec::new(alloc), u64::MAX)
    }

    /// Takes at most `at_most` bytes of a piece, so that it stalls where that is 0. Of its calls,
    /// counted from 1, those that `failing` lists fail, as does one that runs out of memory.
    pub fn with_plan(alloc: Global, failing: Vec<u64>, at_most: u64) -> Self
        ensures took { ⟦<MemSink as Sink>⟧.took result ≡ Some [] }
        ensures faults { ⟦<MemSink as Sink>⟧.faults result ≡ 0 }
        ensures stalls { ⟦<MemSink as Sink>⟧.stalls result ≡ 0 }
        ensures failing { sink_failing result ≡ failing.items }
        ensures at_most { sink_at_most result ≡ at_most }
        ensures calls { sink_calls result ≡ 0 }
    {
        MemSink {
            taken: Vec::new(alloc),
            failing,
            at_most,
            calls: 0,
            faults: 0,
            stalls: 0,
        }
    }

    /// The bytes that it took.
    pub fn taken(&self) -> &[u8]
        ensures { Some result.now ≡ ⟦<MemSink as Sink>⟧.took self.now }
    {
        &self.taken
    }

    /// How often it has failed.
    pub fn faults(&self) -> u64
        ensures { result ≡ ⟦<MemSink as Sink>⟧.faults self.now }
    {
        self.faults
    }

    /// How often it took nothing of a piece that isn't empty.
    pub fn stalls(&self) -> u64
        ensures { result ≡ ⟦<MemSink as Sink>⟧.stalls self.now }
    {
        self.stalls
    }
}

impl Sink for MemSink {
    ghost use Rattle.cas_io.specs.Inner.Memory.{sink_taken, sink_failing, sink_at_most, sink_calls, sink_faults, sink_stalls};

    ghost took = { λ s. Some (sink_taken s) };

    ghost faults = { λ s. sink_faults s };

    ghost stalls = { λ s. sink_stalls s };

    fn write(&mut self, bytes: &[u8]) -> Result<usize, Failed>
        ensures bound { WritesAtMost result bytes.now }
        ensures bytes { WriteAppends (Some (sink_taken self.old)) (Some (sink_taken self.new)) result bytes.now }
        ensures kept { sink_faults self.old ≤ sink_faults self.new }
        ensures cause { OnErr result (Rose (sink_faults self.old) (sink_faults self.new)) }
        ensures stalls_kept { sink_stalls self.old ≤ sink_stalls self.new }
        ensures stalled { IfOk result (λ n. n ≡ 0 → 0 < length bytes.now → Rose (sink_stalls self.old) (sink_stalls self.new)) }
        ensures listed { IsTrue (list_any (λ n. n == one_more (sink_calls self.old)) (sink_failing self.old)) → OnOk result ⊥ }
        ensures planned { IfOk result (λ n. n ≡ min (sink_at_most self.old) (length bytes.now)) }
        ensures counted { OnErr result (sink_faults self.new ≡ one_more (sink_faults self.old)) }
        ensures calls { sink_calls self.new ≡ one_more (sink_calls self.old) }
        ensures plan { (sink_failing self.new ≡ sink_failing self.old) × (sink_at_most self.new ≡ sink_at_most self.old) }
    {
        self.calls = self.calls.saturating_add(1);
        let count = self.at_most.min(bytes.len() as u64) as usize;
        let front = &bytes[..count];
        if self.failing.contains(&self.calls) || self.taken.extend_from_slice(front).is_err() {
            self.faults = self.faults.saturating_add(1);
            return Err(Failed);
        }
        if count == 0 && !bytes.is_empty() {
            self.stalls = self.stalls.saturating_add(1);
        }
        Ok(count)
    }
}
