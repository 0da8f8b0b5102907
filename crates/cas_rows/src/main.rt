//! The program `cas_rows`: runs the scripts of a folder over memory, and tells where what they print,
//! or their status, isn't what stands beside them.
#![tactic(auto)]

mod alike;
mod clock;
mod compare;
mod crash;
mod cut;
mod gate;
mod lines;
mod past;
mod row;
mod running;
mod seen;
mod trial;

use crate::alike::{is_alike, is_of_rules};
use crate::compare::report;
use crate::past::CHOICES;
use crate::row::{Crash, RowFault, Trial, trials};
use crate::trial::run_each;
use cas_disk::Choice;
use std::alloc::{AllocError, Global};
use std::process::ExitCode;
use std::{env, fs, io};

/// How many files agree with what they print, and how many don't.
#[derive(Clone, Copy, Debug, PartialEq, Eq)]
struct Tally {
    agree: u64,
    differ: u64,
}

// The folder of the rows: the first word, and where there is none the folder where the program runs.
fn folder(rt: &HostRuntime) -> io::Result<String> {
    match env::args(rt)?.nth(1) {
        Some(folder) => Ok(folder),
        None => Ok(String::from_str(rt.alloc(), ".")?),
    }
}

fn is_of_rows(name: &str) -> bool {
    name.ends_with(".row") || name.ends_with(".wrong") || is_of_rules(name)
}

// The paths of the folder's files of rows, in order.
fn paths(rt: &HostRuntime) -> io::Result<Vec<String>> {
    let mut paths = Vec::new(rt.alloc());
    for entry in fs::read_dir(rt, folder(rt)?.as_str())? {
        let entry = entry?;
        if is_of_rows(entry.file_name()) {
            paths.push(String::from_str(rt.alloc(), entry.path().to_string_lossy())?)?;
        }
    }
    paths.sort()?;
    Ok(paths)
}

// What differs between a file and what its runs come to, a line each: once, or, where the machine crashes after
// a run, for each choice of what that leaves.
fn differences_of(alloc: Global, path: &str, trials: &[Trial]) -> Result<Vec<String>, AllocError> {
    if !trials.iter().any(|trial| trial.crash == Crash::AtTheEnd) {
        let found = run_each(alloc, trials, Choice::New)?;
        return report(alloc, path, trials, &found);
    }
    let mut all = Vec::new(alloc);
    for (name, choice) in CHOICES {
        let path = format!(in alloc; "{path}, what isn't synced is {name}")?;
        let found = run_each(alloc, trials, choice)?;
        all.append(&mut report(alloc, &path, trials, &found)?)?;
    }
    Ok(all)
}

// What differs between a file and what its runs come to, a line each.
fn differences(rt: &HostRuntime, path: &str) -> io::Result<Vec<String>> {
    let alloc = rt.alloc();
    let text = fs::read(rt, path)?;
    match trials(alloc, &text) {
        Ok(trials) => Ok(differences_of(alloc, path, &trials)?),
        Err(RowFault::Line(line)) => {
            let told = format!(in alloc; "{path}: line {line} isn't one of the format")?;
            Ok(vec![in alloc; told]?)
        }
        Err(RowFault::Mem(error)) => Err(io::Error::from(error)),
    }
}

// Whether nothing differs; what does is printed.
fn agrees(rt: &HostRuntime, path: &str) -> io::Result<bool> {
    let differences = differences(rt, path)?;
    for line in &differences {
        println!(rt; "{line}")?;
    }
    Ok(differences.is_empty())
}

// Whether something differs, as it should in a file that is wrong on purpose.
fn is_noticed(rt: &HostRuntime, path: &str) -> io::Result<bool> {
    let is_noticed = !differences(rt, path)?.is_empty();
    if !is_noticed {
        println!(rt; "{path}: nothing differs, and something should")?;
    }
    Ok(is_noticed)
}

// Rules don't say what is to be printed.
fn is_right(rt: &HostRuntime, path: &str) -> io::Result<bool> {
    if is_of_rules(path) {
        Ok(true)
    } else if path.ends_with(".wrong") {
        is_noticed(rt, path)
    } else {
        agrees(rt, path)
    }
}

fn count_files(rt: &HostRuntime) -> io::Result<Tally> {
    let mut tally = Tally {
        agree: 0,
        differ: 0,
    };
    for path in &paths(rt)? {
        if is_right(rt, path)? && is_alike(rt, path)? {
            tally.agree = tally.agree.saturating_add(1);
        } else {
            tally.differ = tally.differ.saturating_add(1);
        }
    }
    Ok(tally)
}

fn main(rt: HostRuntime) -> io::Result<ExitCode> {
    let Tally { agree, differ } = count_files(&rt)?;
    if differ > 0 {
        println!(&rt; "{differ} scripts differ")?;
        return Ok(ExitCode::FAILURE);
    }
    println!(&rt; "{agree} scripts agree")?;
    Ok(ExitCode::SUCCESS)
}
