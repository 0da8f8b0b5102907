//! The system's streams and clock.

use cas_io::{Clock, StdSink, StdSource, SystemClock, read_script, write_all};
use std::fs;

// Whether a file that is only written can't be read, and the fault is counted.
fn is_read_fault_counted(rt: &HostRuntime) -> Option<bool> {
    let mut source = StdSource::new(fs::create(rt, "a_file").ok()?);
    let is_read = read_script(rt.alloc(), &mut source, 100).is_ok();
    Some(!is_read && source.faults() == 1)
}

// Whether a file that is only read can't be written, and the fault is counted.
fn is_write_fault_counted(rt: &HostRuntime) -> Option<bool> {
    let mut sink = StdSink::new(fs::open(rt, "a_file").ok()?);
    let is_written = write_all(&mut sink, b"x").is_ok();
    Some(!is_written && sink.faults() == 1)
}

#[test]
fn faults_of_the_systems_streams_are_counted(rt: HostRuntime) {
    assert!(rt;
        is_read_fault_counted(&rt) == Some(true)
            && is_write_fault_counted(&rt) == Some(true)
            && fs::remove_file(&rt, "a_file").is_ok()
    );
}

#[test]
fn the_systems_clock_is_past_2020(rt: HostRuntime) {
    let clock = SystemClock::new(&rt);
    let first = clock.read();
    let later = clock.read();
    assert!(rt; first > 1_577_836_800_000_000 && later.saturating_sub(first) < 60_000_000);
}
