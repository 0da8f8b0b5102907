//! The program `cassnode`: runs a script from standard input over the folder that its words name.
#![tactic(auto)]

use cas_disk::Name;
use cas_hostdisk::HostFolder;
use cas_io::{FreeGate, StdSink, StdSource, SystemClock};
use cas_node::{Cause, Outcome, path_of, run};
use std::alloc::AllocError;
use std::io::ErrorKind;
use std::process::ExitCode;
use std::{env, io, mem};

fn words(rt: &HostRuntime) -> io::Result<Vec<String>> {
    let mut words = Vec::new(rt.alloc());
    for word in env::args(rt)?.skip(1) {
        words.push(word)?;
    }
    Ok(words)
}

// The folder that the words name; nothing is asked of it where they name none.
fn folder_path(rt: &HostRuntime, words: &[String]) -> Result<String, AllocError> {
    match path_of(rt.alloc(), words) {
        Ok(Some(path)) => Ok(path),
        Ok(None) => Ok(String::new(rt.alloc())),
        Err(_) => Err(AllocError),
    }
}

fn file_name(rt: &HostRuntime, name: Name) -> Result<String, AllocError> {
    match name {
        Name::Manifest => format!(in rt.alloc(); "manifest"),
        Name::Log(number) => format!(in rt.alloc(); "log-{number:016x}"),
        Name::Table(number) => format!(in rt.alloc(); "table-{number:016x}"),
        Name::Import(number) => format!(in rt.alloc(); "import-{number:016x}"),
    }
}

// Tells which file of the folder isn't as it must be, and where.
fn tell_bad(rt: &HostRuntime, name: Name, at: u64) {
    if let Ok(file) = file_name(rt, name) {
        if let Ok(text) = format!(in rt.alloc(); "bad store: {file} at {at}") {
            let _ = rt.eprintln(text.as_str());
        }
    }
}

// Tells on standard error what the status alone doesn't.
fn tell(rt: &HostRuntime, cause: Cause) {
    match cause {
        Cause::Words => {
            let _ = rt.eprintln("usage: cassnode [options] FOLDER");
        }
        Cause::Bad { name, at } => tell_bad(rt, name, at),
        _ => {}
    }
}

// The words couldn't be collected: memory ran out, or one isn't UTF-8.
fn stop(rt: &HostRuntime, error: &io::Error) -> ExitCode {
    let cause = if error.kind() == ErrorKind::OutOfMemory {
        Cause::Mem
    } else {
        Cause::Words
    };
    tell(rt, cause);
    ExitCode::from(cause.status())
}

fn main(rt: HostRuntime) -> ExitCode {
    let words = match words(&rt) {
        Ok(words) => words,
        Err(error) => return stop(&rt, &error),
    };
    let path = match folder_path(&rt, &words) {
        Ok(path) => path,
        Err(AllocError) => return ExitCode::from(Cause::Mem.status()),
    };
    let mut source = StdSource::new(rt.reader());
    let mut sink = StdSink::new(io::writer(&rt));
    let clock = SystemClock::new(&rt);
    let Outcome {
        status,
        cause,
        pass,
        folder: _folder,
        tally: _tally,
    } = run(
        rt.alloc(),
        &words,
        &mut source,
        &mut sink,
        HostFolder::new(&rt, rt.alloc(), path),
        &clock,
        &FreeGate,
    );
    mem::forget(pass);
    tell(&rt, cause);
    ExitCode::from(status)
}
