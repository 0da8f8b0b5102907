//! An open store, as a program uses it that has no script: it is opened, a session defines a table, writes, reads and
//! flushes, and the folder that is handed back is opened again.

ghost use Rattle.std.specs.Prelude.{◌≡◌, ◌≤◌, pos};
ghost use Rattle.cas_lasting.specs.Nodes.{CountsOn};

use cas_bind::Limits;
use cas_disk::{FaultPlan, MemFolder};
use cas_history::Store;
use cas_io::ManualClock;
use cas_sessions::{Answer, Fault, Node, Opened, Session, Stored, start};
use cql_parse::{TableName, table_name};
use std::alloc::Global;
use std::marker::Brand;
use std::process::Abort;

const CREATE: &str = "CREATE TABLE t (k int PRIMARY KEY, v text)";

const INSERT: &str = "INSERT INTO t (k, v) VALUES (1, 'a')";

const SELECT: &str = "SELECT v FROM t WHERE k = 1";

/// What the calls answered: why the definition wasn't executed; the number of the mutation, and the file of the memtable
/// that it made full, if it did; how many files a flush wrote
/// with the number of the last; how many rows were shown up to which mutation; how many files a second flush wrote; and how
/// many sessions could be begun beside the one.
#[derive(Clone, Copy, PartialEq)]
struct Answered {
    refused: Option<Fault>,
    wrote: u64,
    full: Option<u64>,
    flushed: Option<(usize, u64)>,
    read: (usize, u64),
    again: Option<(usize, u64)>,
    sessions: u64,
}

fn fault_of(answer: Result<Answer, Fault>) -> Option<Fault> {
    match answer {
        Ok(_) => None,
        Err(fault) => Some(fault),
    }
}

fn number_of(answer: Result<Answer, Fault>) -> u64 {
    match answer {
        Ok(Answer::Wrote { number, .. }) => number,
        _ => 0,
    }
}

fn rows_of(answer: Result<Answer, Fault>) -> (usize, u64) {
    match answer {
        Ok(Answer::Rows { rows, front, .. }) => (rows.len(), front),
        _ => (0, 0),
    }
}

fn files_of(answer: Result<Vec<u64>, Fault>) -> Option<(usize, u64)> {
    match answer {
        Ok(files) => Some((files.len(), files.last().copied().unwrap_or(0))),
        Err(_) => None,
    }
}

// The session executes the definition, which is refused, defines it, writes a row, and reads it.
fn write<J: Store>(
    alloc: Global,
    node: &mut Node<MemFolder, J>,
    session: &mut Session<J>,
) -> Answered
    requires { ((⟦<Node<MemFolder, J> as Stored>⟧.state node.old session.old.seat.list session.old.seat.calls (pos 0)).calls ≤ 1000)
        × ((⟦<Node<MemFolder, J> as Stored>⟧.state node.old session.old.seat.list session.old.seat.calls (pos 0)).accepted ≤ 1000) }
{
    let clock = ManualClock { reading: 7_000_000 };
    let refused = fault_of(node.execute(alloc, session, &clock, CREATE));
    let _defined = node.define(alloc, session, CREATE);
    let wrote = number_of(node.execute(alloc, session, &clock, INSERT));
    let read = rows_of(node.execute(alloc, session, &clock, SELECT));
    Answered {
        refused,
        wrote,
        full: None,
        flushed: None,
        read,
        again: None,
        sessions: 0,
    }
}

// The session writes a row, and flushes its memtable if that made it full: the row's number, and the file's.
fn fill<J: Store>(
    alloc: Global,
    node: &mut Node<MemFolder, J>,
    session: &mut Session<J>,
) -> (u64, Option<u64>)
    requires { ((⟦<Node<MemFolder, J> as Stored>⟧.state node.old session.old.seat.list session.old.seat.calls (pos 0)).calls ≤ 2000)
        × ((⟦<Node<MemFolder, J> as Stored>⟧.state node.old session.old.seat.list session.old.seat.calls (pos 0)).accepted ≤ 2000) }
    ensures { CountsOn (⟦<Node<MemFolder, J> as Stored>⟧.state node.old session.old.seat.list session.old.seat.calls (pos 0))
        (⟦<Node<MemFolder, J> as Stored>⟧.state node.new session.new.seat.list session.new.seat.calls (pos 0)) }
{
    let clock = ManualClock { reading: 7_000_000 };
    match node.execute(alloc, session, &clock, INSERT) {
        Ok(
            Answer::Wrote {
                number,
                table,
                shard,
            },
        ) => match node.flush_full(alloc, session, table, shard) {
            Ok(file) => (number, file),
            Err(_) => (number, None),
        },
        _ => (0, None),
    }
}

// The session writes a row, flushes the table, reads the row, and flushes once more.
fn flush<J: Store>(
    alloc: Global,
    node: &mut Node<MemFolder, J>,
    session: &mut Session<J>,
    name: &TableName,
) -> Answered
    requires { ((⟦<Node<MemFolder, J> as Stored>⟧.state node.old session.old.seat.list session.old.seat.calls (pos 0)).calls ≤ 1000)
        × ((⟦<Node<MemFolder, J> as Stored>⟧.state node.old session.old.seat.list session.old.seat.calls (pos 0)).accepted ≤ 1000) }
{
    let clock = ManualClock { reading: 7_000_000 };
    let _defined = node.define(alloc, session, CREATE);
    let (wrote, full) = fill(alloc, node, session);
    let flushed = files_of(node.flush(alloc, session, name));
    let read = rows_of(node.execute(alloc, session, &clock, SELECT));
    let again = files_of(node.flush(alloc, session, name));
    Answered {
        refused: None,
        wrote,
        full,
        flushed,
        read,
        again,
        sessions: 0,
    }
}

// The session defines, writes and reads; of a table that is named it also flushes what it wrote.
fn ask<J: Store>(
    alloc: Global,
    node: &mut Node<MemFolder, J>,
    session: &mut Session<J>,
    name: Option<&TableName>,
) -> Answered
    requires { ((⟦<Node<MemFolder, J> as Stored>⟧.state node.old session.old.seat.list session.old.seat.calls (pos 0)).calls ≤ 1000)
        × ((⟦<Node<MemFolder, J> as Stored>⟧.state node.old session.old.seat.list session.old.seat.calls (pos 0)).accepted ≤ 1000) }
{
    match name {
        Some(name) => flush(alloc, node, session, name),
        None => write(alloc, node, session),
    }
}

// How many sessions can be out at a time, besides those that are, up to so many.
fn more_sessions<J: Store>(node: &mut Node<MemFolder, J>, most: u64) -> u64 {
    if most == 0 {
        return 0;
    }
    match node.session() {
        Ok(session) => {
            let more = more_sessions(node, most - 1);
            node.end(session);
            more.saturating_add(1)
        }
        Err(_) => 0,
    }
}

// What a session of an opened store was answered, which flushes the table of that name, and the folder.
fn used<J: Store>(
    rt: &impl Abort,
    alloc: Global,
    opened: Opened<MemFolder>,
    name: Option<&TableName>,
) -> (Answered, MemFolder)
    requires { opened.table.seat.table_id ≡ J.table }
{
    let mut node = match opened.named::<J>(alloc) {
        Ok(node) => node,
        Err(_closed) => panic!(rt; "memory"),
    };
    let mut session = match node.session() {
        Ok(session) => session,
        Err(_) => panic!(rt; "memory"),
    };
    let mut answered = ask(alloc, &mut node, &mut session, name);
    answered.sessions = more_sessions(&mut node, 40);
    node.end(session);
    (answered, node.close().into_folder())
}

fn opened_and_used(
    rt: &impl Abort,
    alloc: Global,
    folder: MemFolder,
    memtable: u64,
    name: Option<&TableName>,
) -> (Answered, MemFolder) {
    let limits = Limits {
        shards: 1,
        segment: 4_096,
        memtable,
        compactors: 0,
    };
    match start(alloc, folder, &limits) {
        Ok(opened) => used::<Brand>(rt, alloc, opened, name),
        Err((_, _closed)) => panic!(rt; "no store"),
    }
}

// What is answered in two openings of one folder, where memtables may have so many bytes.
fn used_twice(
    rt: &impl Abort,
    alloc: Global,
    memtable: u64,
    name: Option<&TableName>,
) -> (Answered, Answered) {
    let folder = MemFolder::new(alloc, FaultPlan::none(alloc));
    let (first, folder) = opened_and_used(rt, alloc, folder, memtable, name);
    let (second, _folder) = opened_and_used(rt, alloc, folder, memtable, name);
    (first, second)
}

// Of 33 sessions 32 are left.
fn expected(number: u64) -> Answered {
    Answered {
        refused: Some(Fault::Refused(13)),
        wrote: number,
        full: None,
        flushed: None,
        read: (1, number),
        again: None,
        sessions: 32,
    }
}

// The second time the table is there, and the mutation is the second.
#[test]
fn a_store_is_used_without_a_script(rt: HostRuntime) {
    assert!(rt; used_twice(&rt, rt.alloc(), 4_096, None) == (expected(1), expected(2)));
}

// What is flushed is one file, and nothing is left to be flushed then.
fn expected_flush(number: u64) -> Answered {
    Answered {
        refused: None,
        wrote: number,
        full: None,
        flushed: Some((1, number)),
        read: (1, number),
        again: Some((0, 0)),
        sessions: 32,
    }
}

// The first opening writes file 1 and the second, which finds it, file 2.
#[test]
fn a_table_is_flushed_and_found(rt: HostRuntime) {
    let name = table_name(rt.alloc(), "t").ok().expect(&rt, "a name");
    assert!(rt;
        used_twice(&rt, rt.alloc(), 4_096, Some(&name)) == (expected_flush(1), expected_flush(2))
    );
}

// What is flushed behind the row is one file, and nothing is left to be flushed then.
fn expected_full(number: u64) -> Answered {
    Answered {
        refused: None,
        wrote: number,
        full: Some(number),
        flushed: Some((0, 0)),
        read: (1, number),
        again: Some((0, 0)),
        sessions: 32,
    }
}

// The row's record has more bytes than a memtable may have.
#[test]
fn a_full_memtable_is_flushed_and_found(rt: HostRuntime) {
    let name = table_name(rt.alloc(), "t").ok().expect(&rt, "a name");
    assert!(rt;
        used_twice(&rt, rt.alloc(), 10, Some(&name)) == (expected_full(1), expected_full(2))
    );
}
