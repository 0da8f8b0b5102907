//! A write's atoms at a worked timestamp, and the longest key.

ghost use Rattle.std.specs.Prelude.{◌≡◌, pos, Some};

use cas_atoms::{Atom, ColumnRef};
use cas_cell::{Cell, Deletion};
use cas_effects::{
    BoundWrite, Effect, Elements, Refusal, atoms_of, one_too_large, write_too_large,
};
use cas_types::{Bytes, List};
use std::alloc::{AllocError, Global};
use std::test::Fail;

const COLUMN: ColumnRef = ColumnRef {
    number: 2,
    path: None,
};

/// The places of the second of two values that mutation 1 appends, and that it prepends.
const AFTER: &[u8] = &[128, 0, 0, 0, 0, 0, 0, 1, 0, 0, 0, 0, 0, 0, 0, 1];

const BEFORE: &[u8] = &[
    127, 255, 255, 255, 255, 255, 255, 255, 0, 0, 0, 0, 0, 0, 0, 1,
];

fn write(key: Bytes, effects: Vec<Effect>) -> BoundWrite
    ensures { result.timestamp ≡ Some (pos 10) }
{
    BoundWrite {
        table: 0,
        shard: 0,
        key,
        timestamp: Some(10),
        ttl: 5,
        effects: List::from_vec(effects),
    }
}

fn two_values(alloc: Global) -> Result<List<Bytes>, AllocError> {
    let mut values = Vec::new(alloc);
    values.push(Bytes::from_vec(Vec::new(alloc)))?;
    values.push(Bytes::from_vec(Vec::new(alloc)))?;
    Ok(List::from_vec(values))
}

// A list is given two values, two are put before them, and another column is given null.
fn effects(alloc: Global) -> Result<Vec<Effect>, AllocError> {
    let appended = Elements::Appended(two_values(alloc)?);
    let prepended = Elements::Prepended(two_values(alloc)?);
    let mut effects = Vec::new(alloc);
    effects.push(Effect::Whole(None, COLUMN, appended))?;
    effects.push(Effect::Parts(None, COLUMN, prepended))?;
    effects.push(Effect::Plain(None, COLUMN, None))?;
    Ok(effects)
}

fn are_worked(atoms: &[Atom]) -> bool {
    match atoms {
        [
            Atom::StaticCollectionDeletion(_, Deletion { at: 9, second: 3 }),
            _,
            Atom::StaticWrite(_, after, Cell::Expiring { expiry: 8, .. }),
            _,
            Atom::StaticWrite(_, before, _),
            Atom::StaticWrite(_, _, Cell::Tombstone { at: 10, second: 3 }),
        ] => after.as_slice() == AFTER && before.as_slice() == BEFORE,
        _ => false,
    }
}

#[test]
fn values_have_places_and_expire_and_deletions_have_their_second(
    rt: HostRuntime,
) -> Result<(), Fail> {
    let alloc = rt.alloc();
    let replacing = write(Bytes::from_vec(Vec::new(alloc)), effects(alloc)?);
    let mutation = atoms_of(alloc, replacing, 20, 3, 1)?;
    assert!(rt; are_worked(mutation.atoms.as_slice()));
    Ok(())
}

#[test]
fn keys_have_up_to_65535_bytes_and_plain_values_more(rt: HostRuntime) -> Result<(), Fail> {
    let alloc = rt.alloc();
    let longer = vec![in alloc; 0; 65_536]?;
    assert!(rt;
        matches!(
            one_too_large(longer.as_slice()),
            Some(Refusal::TooLarge {
                length: 65_536,
                limit: 65_535,
            })
        )
    );
    let longest = Bytes::from_vec(vec![in alloc; 0; 65_535]?);
    let mut effects = Vec::new(alloc);
    effects.push(Effect::Plain(None, COLUMN, Some(Bytes::from_vec(longer))))?;
    assert!(rt; write_too_large(&write(longest, effects)).is_none());
    Ok(())
}
