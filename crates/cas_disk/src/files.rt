//! Files in memory, each under its name.
ghost use Rattle.std.specs.Prelude.{◌≡◌, ◌≤◌, not, filter, is_some, None, Some, MatchOption, OnOk, OnErr, IfOk, length, nat_le, vec_len};
ghost use Rattle.std.specs.Vec.{vec_capacity};
ghost use Rattle.cas_disk.specs.Names.{same_name};
ghost use Rattle.cas_disk.specs.Disk.{put_at};
ghost use Rattle.cas_disk.specs.Inner.Past.{image_of, with_file, written};

use crate::event::Stored;
use crate::name::{Name, same_name};
use std::alloc::{AllocError, Global};

/// The bytes of a file, where it is there.
pub fn find(files: &[Stored], n: Name) -> Option<&[u8]>
    ensures { MatchOption result (image_of files.now n ≡ None) (λ bytes. image_of files.now n ≡ Some bytes.now) }
{
    let mut rest = files;
    while let [file, after @ ..] = rest {
        if same_name(file.name, n) {
            return Some(&file.bytes);
        }
        rest = after;
    }
    None
}

// The files but for this one.
fn leave(files: &mut Vec<Stored>, n: Name)
    ensures items { files.new.items ≡ filter (λ file. not (same_name n file.name)) files.old.items }
    ensures capacity { vec_capacity files.new ≡ vec_capacity files.old }
    ensures bound { vec_len files.new ≤ vec_len files.old }
{
    files.retain(|file| !same_name(n, file.name));
}

/// Takes a file away.
pub fn take_file(files: &mut Vec<Stored>, n: Name)
    ensures { image_of files.new.items ≡ with_file n None (image_of files.old.items) }
{
    leave(files, n);
}

/// Puts a file in the place of what stands under its name.
pub fn set_file(files: &mut Vec<Stored>, n: Name, bytes: Vec<u8>) -> Result<(), AllocError>
    ensures ok { OnOk result (image_of files.new.items ≡ with_file n (Some bytes.items) (image_of files.old.items)) }
    ensures err { OnErr result (files.new.items ≡ files.old.items) }
{
    files.reserve(1)?;
    leave(files, n);
    files.push_reserved(Stored { name: n, bytes });
    Ok(())
}

// The file with these bytes at this place, where it reaches so far.
fn placed(alloc: Global, file: &[u8], at: usize, bytes: &[u8]) -> Result<Vec<u8>, AllocError>
    requires { at ≤ length file.now }
    ensures { IfOk result (λ v. v.items ≡ put_at at bytes.now file.now) }
{
    let mut next = Vec::from_slice(alloc, &file[..at])?;
    next.extend_from_slice(bytes)?;
    if bytes.len() < file.len() - at {
        next.extend_from_slice(&file[at + bytes.len()..])?;
    }
    Ok(next)
}

// The file with these bytes at this place. One that doesn't reach so far stays.
fn written(alloc: Global, file: &[u8], at: u64, bytes: &[u8]) -> Result<Vec<u8>, AllocError>
    ensures { IfOk result (λ v. written at bytes.now (Some file.now) ≡ Some v.items) }
{
    if at <= file.len() as u64 {
        placed(alloc, file, at as usize, bytes)
    } else {
        Vec::from_slice(alloc, file)
    }
}

/// Writes these bytes at this place of a file. One that isn't there, or doesn't reach so far, stays.
pub fn write_file(
    alloc: Global,
    files: &mut Vec<Stored>,
    n: Name,
    at: u64,
    bytes: &[u8],
) -> Result<(), AllocError>
    ensures ok { OnOk result (image_of files.new.items ≡ with_file n (written at bytes.now (image_of files.old.items n)) (image_of files.old.items)) }
    ensures err { OnErr result (files.new.items ≡ files.old.items) }
{
    let next = match find(files, n) {
        Some(file) => written(alloc, file, at, bytes)?,
        None => {
            take_file(files, n);
            return Ok(());
        }
    };
    set_file(files, n, next)
}
