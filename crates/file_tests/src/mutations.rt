//! Atoms, written by hand, and where they are refused.

use crate::insert::columns;
use cas_bounds::{RowOrder, clustering_order};
use cas_codec::{ReadFault, Reader};
use cas_mutations::read_atom;
use cas_types::Column;
use std::alloc::Global;
use std::test::Fail;

// The place where an atom is refused, or `-` where none is, and its bytes: of a range from before the row 1 to
// after it, and the other way round; of an element of a list whose path is a byte short, and whole; of the static
// column, and of another one that isn't; of a collection that is none.
const ATOMS: &str = "\
- 020001000400000001010100040000000100000000000000050000000000000000
9 020101000400000001000100040000000100000000000000050000000000000000
10 06010004000000010003000f6162636465666768696a6b6c6d6e6f0200000000000000050000000000000000
- 0601000400000001000300106162636465666768696a6b6c6d6e6f700200000000000000050000000000000000
- 07000400000000000000000000050000000161
1 07000200000000000000000000050000000161
1 08000400000000000000050000000000000000";

// Whether the line's bytes are read as it says.
fn is_told(alloc: Global, order: &RowOrder, columns: &[Column], line: &str) -> Option<bool> {
    let (at, digits) = line.split_once(' ')?;
    let bytes = hex::decode(alloc, digits).ok()?;
    let fault = read_atom(alloc, &mut Reader::new(&bytes, 0), order, columns).err();
    let expected = at.parse().ok().map(|at| ReadFault::Bad { at });
    Some(fault == expected)
}

#[test]
fn atoms_by_hand(rt: HostRuntime) -> Result<(), Fail> {
    let columns = columns(rt.alloc())?;
    let order = clustering_order(rt.alloc(), &columns)?;
    for line in ATOMS.lines() {
        assert!(rt;
            is_told(rt.alloc(), &order, &columns, line) == Some(true),
            "{line}"
        );
    }
    Ok(())
}
