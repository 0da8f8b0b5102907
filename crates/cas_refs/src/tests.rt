ghost use Rattle.cas_refs.specs.Counts.{at, Live};

use super::*;
use std::test::*;

fn is_some(removal: Option<Removal>) -> bool {
    match removal {
        Some(removal) => {
            removal.into_id();
            true
        }
        None => false,
    }
}

fn pin_and_release(book: &mut RefBook, id: u64) -> (bool, bool)
    requires { Live (at book.old id) }
    ensures { Live (at book.new id) }
{
    match book.pin(id) {
        Ok(pin) => (true, is_some(book.release(pin))),
        Err(Full) => (false, false),
    }
}

/// The last reader that gives a retired table back lets its file go; so does retiring one that nobody
/// reads.
#[test]
fn a_file_goes_with_its_last_reader(rt: HostRuntime) -> Result<(), Fail> {
    let mut book = RefBook::new(rt.alloc());
    book.add(7)?;
    let listed = pin_and_release(&mut book, 7);
    assert!(rt; listed == (true, false));
    if let Ok(pin) = book.pin(7) {
        let early = is_some(book.retire(7));
        let last = is_some(book.release(pin));
        assert!(rt; !early && last && book.count(7).is_none());
    }
    let mut other = RefBook::new(rt.alloc());
    other.add(8)?;
    let unread = is_some(other.retire(8));
    assert!(rt; unread && other.count(8).is_none());
    Ok(())
}

/// At 2^32-1 pins the book is full; one less, and it isn't.
#[test]
fn the_book_is_full_at_its_limit(rt: HostRuntime) -> Result<(), Fail> {
    for (pins, pinned) in [(u32::MAX, false), (u32::MAX - 1, true)] {
        let mut book = RefBook::new(rt.alloc());
        book.counts.insert(
            9,
            Count {
                pins,
                retired: false,
            },
        )?;
        if book.count(9).is_some() {
            let tried = book.pin(9);
            let got = match tried {
                Ok(pin) => {
                    book.release(pin).map(Removal::into_id);
                    true
                }
                Err(Full) => false,
            };
            assert!(rt; got == pinned);
        }
    }
    Ok(())
}
