//! A file that is read from its start on, of which only the next bytes are kept.

ghost use Rattle.std.specs.Prelude.{◌≡◌, ◌+◌, ◌-◌, ◌≤◌, ◌^◌, [], length, drop, max, vec_len, OnOk, IfOk, IsErrOf};
ghost use Rattle.cas_disk.specs.Counts.{Counted};
ghost use Rattle.cas_disk.specs.Disk.{Image, During, Follows, Same, bytes_of};
ghost use Rattle.cas_files.specs.Ahead.{AreNext, AreEnough, passed};

use crate::reading::read_on;
use cas_disk::{Folder, FolderFault, Name};
use std::alloc::{AllocError, Global};
use std::marker::Model;

/// A file that is read from its start on, in pieces of 64 KiB. Contracts see its name, the place of
/// the next byte, and the bytes that are at hand from there on.
#[derive(Drop)]
pub struct FileReader {
    name: Name,
    at: u64,
    bytes: Vec<u8>,
    // So many of the bytes are passed.
    passed: usize,
}

impl Model for FileReader {
    ghost use Rattle.std.specs.Prelude.{◌≤◌, drop, vec_len};
    ghost use Rattle.cas_files.specs.Ahead.{Ahead};

    ghost Value = { Ahead };

    ghost view = { λ r. record { name = r.name; at = r.at; bytes = drop r.passed r.bytes.items } };

    ghost invariant = { λ r. r.passed ≤ vec_len r.bytes };
}

// The bytes from a place on, without those before it.
fn behind(bytes: &Vec<u8>, passed: usize) -> Result<Vec<u8>, AllocError>
    requires { passed ≤ vec_len bytes.now }
    ensures items { IfOk result (λ v. v.items ≡ drop passed bytes.now.items) }
    ensures long { IfOk result (λ v. vec_len v ≡ vec_len bytes.now - passed) }
{
    bytes[passed..].to_vec(*bytes.allocator())
}

impl FileReader {
    /// A file at its start, with no bytes at hand.
    pub fn new(alloc: Global, name: Name) -> Self
        ensures { result ≡ record { name = name; at = 0; bytes = [] } }
    {
        FileReader {
            name,
            at: 0,
            bytes: Vec::new(alloc),
            passed: 0,
        }
    }

    /// The place of the next byte.
    pub fn at(&self) -> u64
        ensures { result ≡ self.now.at }
    {
        self.at
    }

    /// The bytes at hand.
    pub fn ahead(&self) -> &[u8]
        ensures { result.now ≡ self.now.bytes }
    {
        &self.bytes[self.passed..]
    }

    /// Reads until so many bytes are at hand, or all that the file has.
    pub fn reach<F: Folder>(&mut self, folder: &mut F, count: usize) -> Result<(), FolderFault>
        requires { self.old.at ≤ 2 ^ 62 }
        ensures name { self.new.name ≡ self.old.name }
        ensures at { self.new.at ≡ self.old.at }
        ensures next { OnOk result ((c : Image) → (F.disk folder.old).reads c → AreNext self.old.at (bytes_of (c self.old.name)) self.old.bytes
            → AreNext self.old.at (bytes_of (c self.old.name)) self.new.bytes × AreEnough count self.old.at (bytes_of (c self.old.name)) self.new.bytes) }
        ensures bounded { OnOk result (length self.new.bytes ≤ max (length self.old.bytes) (count + 65535)) }
        ensures reads { Follows Same (F.disk folder.old).reads (F.disk folder.new).reads }
        ensures during { During Same (F.disk folder.old) (F.disk folder.new) }
        ensures count { Counted (F.faults_of folder.old) (F.faults_of folder.new) (IsErrOf result FolderFault.Failed) }
    {
        if self.bytes.len() - self.passed >= count {
            return Ok(());
        }
        let Ok(rest) = behind(&self.bytes, self.passed) else {
            return Err(FolderFault::Mem);
        };
        self.bytes = rest;
        self.passed = 0;
        read_on(folder, self.name, self.at, &mut self.bytes, count)
    }

    /// Passes over bytes that are at hand.
    pub fn pass(&mut self, count: usize)
        requires within { count ≤ length self.old.bytes }
        requires place { self.old.at ≤ 2 ^ 62 }
        ensures { self.new ≡ passed count self.old }
    {
        self.passed += count;
        self.at += count as u64;
    }
}
