//! The lines of a reply.

ghost use Rattle.std.specs.Prelude.{◌≡◌, ◌++◌, [], codes, OnOk, OnErr};
ghost use Rattle.std.specs.List.{flat_map, join_by};
ghost use Rattle.cas_render.specs.Text.{datum_text, further_number, listed_text, row_text, trailer, failure_text, reply_text};
ghost use Rattle.cas_render.specs.Text.{found_text, verdict_text, verified_text};

use crate::collections::append_datum;
use crate::pieces::{append, append_number, append_signed};
use crate::reply::{Failure, Listed, Reply, Verdict};
use cas_atoms::{Datum, LiveRow};
use cas_types::Mem;
use std::alloc::Global;

fn append_further_datum(alloc: Global, out: &mut Vec<u8>, datum: &Datum) -> Result<(), Mem>
    ensures { OnOk result (out.new.items ≡ out.old.items ++ (codes " | " ++ datum_text datum.now)) }
{
    append(out, b" | ")?;
    append_datum(alloc, out, datum)
}

fn append_further_data(alloc: Global, out: &mut Vec<u8>, values: &[Datum]) -> Result<(), Mem>
    ensures { OnOk result (out.new.items ≡ out.old.items ++ flat_map (λ d. codes " | " ++ datum_text d) values.now) }
{
    for datum in values {
        append_further_datum(alloc, out, datum)?;
    }
    Ok(())
}

fn append_joined(alloc: Global, out: &mut Vec<u8>, values: &[Datum]) -> Result<(), Mem>
    ensures { OnOk result (out.new.items ≡ out.old.items ++ join_by datum_text (codes " | ") values.now) }
{
    match values {
        [] => Ok(()),
        [first, rest @ ..] => {
            append_datum(alloc, out, first)?;
            append_further_data(alloc, out, rest)
        }
    }
}

#[tactic(auto, unfolding(crate::specs::Text::row_text))]
fn append_row(alloc: Global, out: &mut Vec<u8>, row: &LiveRow) -> Result<(), Mem>
    ensures { OnOk result (out.new.items ≡ out.old.items ++ row_text row.now) }
{
    append_joined(alloc, out, row.values.as_slice())?;
    append(out, b"\n")
}

fn append_rows(alloc: Global, out: &mut Vec<u8>, rows: &[LiveRow]) -> Result<(), Mem>
    ensures { OnOk result (out.new.items ≡ out.old.items ++ flat_map row_text rows.now) }
{
    for row in rows {
        append_row(alloc, out, row)?;
    }
    Ok(())
}

#[tactic(auto, unfolding(crate::specs::Text::trailer))]
fn append_trailer(out: &mut Vec<u8>, rows: u64, shard: u8, front: u64, now: i64) -> Result<(), Mem>
    ensures { OnOk result (out.new.items ≡ out.old.items ++ trailer rows shard front now) }
{
    append(out, b"-- ")?;
    append_number(out, rows)?;
    append(out, b" rows, shard ")?;
    append_number(out, u64::from(shard))?;
    append(out, b", front ")?;
    append_number(out, front)?;
    append(out, b", now ")?;
    append_signed(out, now)?;
    append(out, b"\n")
}

fn append_further_number(out: &mut Vec<u8>, number: u64) -> Result<(), Mem>
    ensures { OnOk result (out.new.items ≡ out.old.items ++ further_number number) }
{
    append(out, b" ")?;
    append_number(out, number)
}

fn append_further_numbers(out: &mut Vec<u8>, numbers: &[u64]) -> Result<(), Mem>
    ensures { OnOk result (out.new.items ≡ out.old.items ++ flat_map further_number numbers.now) }
{
    for number in numbers {
        append_further_number(out, *number)?;
    }
    Ok(())
}

fn append_flushed(out: &mut Vec<u8>, files: &[u64]) -> Result<(), Mem>
    ensures { OnOk result (out.new.items ≡ out.old.items ++ (codes "flushed" ++ flat_map further_number files.now ++ codes "\n")) }
{
    append(out, b"flushed")?;
    append_further_numbers(out, files)?;
    append(out, b"\n")
}

#[tactic(auto, unfolding(crate::specs::Text::listed_text))]
fn append_listed(out: &mut Vec<u8>, listed: &Listed) -> Result<(), Mem>
    ensures { OnOk result (out.new.items ≡ out.old.items ++ listed_text listed.now) }
{
    append(out, listed.table.as_str().as_bytes())?;
    append(out, b" shard ")?;
    append_number(out, u64::from(listed.shard))?;
    append(out, b":")?;
    append_further_numbers(out, listed.files.as_slice())?;
    append(out, b"\n")
}

fn append_status(out: &mut Vec<u8>, tables: &[Listed]) -> Result<(), Mem>
    ensures { OnOk result (out.new.items ≡ out.old.items ++ flat_map listed_text tables.now) }
{
    for listed in tables {
        append_listed(out, listed)?;
    }
    Ok(())
}

fn append_found(out: &mut Vec<u8>, bad: Option<u64>) -> Result<(), Mem>
    ensures { OnOk result (out.new.items ≡ out.old.items ++ found_text bad) }
{
    match bad {
        None => append(out, b" good"),
        Some(at) => {
            append(out, b" bad at ")?;
            append_number(out, at)
        }
    }
}

#[tactic(auto, unfolding(crate::specs::Text::verdict_text))]
fn append_verdict(out: &mut Vec<u8>, verdict: Verdict) -> Result<(), Mem>
    ensures { OnOk result (out.new.items ≡ out.old.items ++ verdict_text verdict) }
{
    append_number(out, verdict.number)?;
    append_found(out, verdict.bad)?;
    append(out, b"\n")
}

fn append_verdicts(out: &mut Vec<u8>, verdicts: &[Verdict]) -> Result<(), Mem>
    ensures { OnOk result (out.new.items ≡ out.old.items ++ flat_map verdict_text verdicts.now) }
{
    for verdict in verdicts {
        append_verdict(out, *verdict)?;
    }
    Ok(())
}

fn append_verified(out: &mut Vec<u8>, verdicts: &[Verdict]) -> Result<(), Mem>
    ensures { OnOk result (out.new.items ≡ out.old.items ++ verified_text verdicts.now) }
{
    match verdicts {
        [] => append(out, b"nothing\n"),
        [_first, ..] => append_verdicts(out, verdicts),
    }
}

fn append_failure(out: &mut Vec<u8>, failure: Failure) -> Result<(), Mem>
    ensures { OnOk result (out.new.items ≡ out.old.items ++ failure_text failure) }
{
    match failure {
        Failure::Memory => append(out, b"failed memory\n"),
        Failure::Stopped => append(out, b"failed stopped\n"),
        Failure::Disk => append(out, b"failed disk\n"),
        Failure::Read => append(out, b"failed read\n"),
        Failure::Block { .. } => append(out, b"failed block\n"),
    }
}

#[tactic(auto, unfolding(crate::specs::Text::reply_text))]
fn append_reply(alloc: Global, out: &mut Vec<u8>, reply: &Reply) -> Result<(), Mem>
    ensures { OnOk result (out.new.items ≡ out.old.items ++ reply_text reply.now) }
{
    match reply {
        Reply::Done => append(out, b"ok\n"),
        Reply::Wrote { number } => {
            append(out, b"ok ")?;
            append_number(out, *number)?;
            append(out, b"\n")
        }
        Reply::Rows {
            rows,
            shard,
            front,
            now,
        } => {
            append_rows(alloc, out, rows.as_slice())?;
            append_trailer(out, rows.len() as u64, *shard, *front, *now)
        }
        Reply::Flushed { files } => append_flushed(out, files.as_slice()),
        Reply::Verified { files } => append_verified(out, files.as_slice()),
        Reply::Status { tables } => append_status(out, tables.as_slice()),
        Reply::Refused(number) => {
            append(out, b"refused S")?;
            append_number(out, u64::from(*number))?;
            append(out, b"\n")
        }
        Reply::Failed(failure) => append_failure(out, *failure),
    }
}

// Without a copy, where nothing stands before it.
fn render_first(alloc: Global, reply: &Reply, out: &mut Vec<u8>) -> Result<(), Mem>
    requires { out.old.items ≡ [] }
    ensures ok { OnOk result (out.new.items ≡ reply_text reply.now) }
    ensures err { OnErr result (out.new.items ≡ []) }
{
    match append_reply(alloc, out, reply) {
        Ok(()) => Ok(()),
        Err(Mem) => {
            out.clear();
            Err(Mem)
        }
    }
}

/// Appends what the program prints of a reply. Where memory runs out nothing is appended.
pub fn render(alloc: Global, reply: &Reply, out: &mut Vec<u8>) -> Result<(), Mem>
    ensures ok { OnOk result (out.new.items ≡ out.old.items ++ reply_text reply.now) }
    ensures err { OnErr result (out.new.items ≡ out.old.items) }
{
    if out.is_empty() {
        return render_first(alloc, reply, out);
    }
    let mut text = Vec::new(alloc);
    match append_reply(alloc, &mut text, reply) {
        Ok(()) => append(out, &text),
        Err(Mem) => Err(Mem),
    }
}
