//! The bytes of a partition key, made from the values of its columns.

ghost use Rattle.std.specs.Prelude.{◌≡◌, ◌+◌, ◌-◌, ◌^◌, ◌≤◌, ◌++◌, ◌∷◌, [], length, Some, None, Err, IfOk, IfErr, min, flat_map};
ghost use Rattle.cas_types.specs.Keys.{key_of, component, composite_key, key_fault};
ghost use Rattle.cas_types.specs.declared.limits.TheConstants.{KEY_LIMIT};
ghost use Rattle.cas_types.specs.declared.key.KeyFault.TheVariants as fault;
ghost use Rattle.cas_types.specs.declared.key.KeyFault.{KeyFault as Fault};

use crate::bytes::Bytes;
use crate::limits::KEY_LIMIT;
use crate::mem::Mem;
use std::alloc::{AllocError, Global};
use std::marker::Model;

/// Why there is no key. The length is that of the key's bytes, and stands at 2^64-1 where it is
/// greater.
#[derive(Clone, Copy)]
pub enum KeyFault {
    Empty,
    TooLong { length: u64 },
    Mem,
}

/// Takes the values of the partition key's columns one by one. Contracts see the number of columns
/// and the values so far.
#[derive(Drop)]
pub struct KeyBuilder {
    parts: usize,
    values: Vec<Bytes>,
}

impl Model for KeyBuilder {
    ghost use Rattle.cas_types.specs.Keys.{KeyParts};

    ghost Value = { KeyParts };

    ghost view = { λ b. record { parts = b.parts; values = b.values.items } };
}

impl KeyBuilder {
    /// A builder of a key of so many columns.
    pub fn new(alloc: Global, parts: usize) -> Self
        requires { 1 ≤ parts }
        ensures parts { result.parts ≡ parts }
        ensures values { result.values ≡ [] }
    {
        KeyBuilder {
            parts,
            values: Vec::new(alloc),
        }
    }

    /// Takes the next column's value.
    pub fn push(&mut self, value: &[u8]) -> Result<(), Mem>
        ensures parts { self.new.parts ≡ self.old.parts }
        ensures taken { IfOk result (λ _. self.new.values ≡ self.old.values ++ value.now ∷ []) }
        ensures unchanged { IfErr result (λ _. self.new.values ≡ self.old.values) }
    {
        let alloc = *self.values.allocator();
        match Bytes::copy_of(alloc, value) {
            Ok(copy) => match self.values.push(copy) {
                Ok(()) => Ok(()),
                Err(_) => Err(Mem),
            },
            Err(_) => Err(Mem),
        }
    }

    /// The key's bytes, once each column has its value.
    pub fn finish(self) -> Result<Vec<u8>, KeyFault>
        requires { length self.values ≡ self.parts }
        ensures key { IfOk result (λ key. key.items ≡ key_of self.values) }
        ensures refused { (f : Fault) → key_fault (key_of self.values) ≡ Some f → result ≡ Err f }
        ensures memory { key_fault (key_of self.values) ≡ None → IfErr result (λ f. f ≡ fault.Mem) }
    {
        let length = key_length(&self.values);
        if length == 0 {
            return Err(KeyFault::Empty);
        }
        if length > KEY_LIMIT {
            return Err(KeyFault::TooLong { length });
        }
        match encode(*self.values.allocator(), &self.values) {
            Ok(key) => Ok(key),
            Err(_) => Err(KeyFault::Mem),
        }
    }
}

// The length of the key's bytes, at most 2^64-1.
fn key_length(values: &[Bytes]) -> u64
    ensures { result ≡ min (length (key_of values.now)) (2 ^ 64 - 1) }
{
    match values {
        [value] => value.as_slice().len() as u64,
        _ => composite_length(values),
    }
}

fn composite_length(values: &[Bytes]) -> u64
    ensures { result ≡ min (length (composite_key values.now)) (2 ^ 64 - 1) }
{
    let mut total: u64 = 0;
    for value in values {
        total = total.saturating_add(value.as_slice().len() as u64 + 3);
    }
    total
}

fn encode(alloc: Global, values: &[Bytes]) -> Result<Vec<u8>, AllocError>
    requires { length (key_of values.now) ≤ KEY_LIMIT }
    ensures { IfOk result (λ key. key.items ≡ key_of values.now) }
{
    match values {
        [value] => Ok(value.as_slice().to_vec(alloc)?),
        _ => encode_composite(alloc, values),
    }
}

fn encode_composite(alloc: Global, values: &[Bytes]) -> Result<Vec<u8>, AllocError>
    requires { length (composite_key values.now) ≤ KEY_LIMIT }
    ensures { IfOk result (λ key. key.items ≡ composite_key values.now) }
{
    let mut key = Vec::new(alloc);
    for value in values {
        append_component(&mut key, value.as_slice())?;
    }
    Ok(key)
}

fn append_component(key: &mut Vec<u8>, value: &[u8]) -> Result<(), AllocError>
    requires { length value.now ≤ KEY_LIMIT }
    ensures { IfOk result (λ _. key.new.items ≡ key.old.items ++ component value.now) }
{
    key.extend_from_slice(&(value.len() as u16).to_be_bytes())?;
    key.extend_from_slice(value)?;
    key.push(0)?;
    Ok(())
}
