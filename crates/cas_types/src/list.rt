//! Lists as contracts see them.

ghost use Rattle.std.specs.Prelude.{◌≡◌, length};

use std::alloc::AllocError;
use std::marker::Model;

/// A list, which contracts see as a list. It is made from a `Vec` and gives it back without taking
/// memory.
#[derive(Drop)]
pub struct List<X> {
    items: Vec<X>,
}

impl<X> Model for List<X> {
    ghost use Rattle.std.specs.Prelude.{List as ListOf};

    ghost Value = { ListOf X };

    ghost view = { λ l. l.items.items };
}

impl<X> List<X> {
    pub fn from_vec(items: Vec<X>) -> Self
        ensures { result ≡ items.items }
    {
        List { items }
    }

    pub fn into_vec(self) -> Vec<X>
        ensures { result.items ≡ self }
    {
        self.items
    }

    pub fn as_slice(&self) -> &[X]
        ensures { result.now ≡ self.now }
    {
        &self.items
    }

    pub fn len(&self) -> usize
        ensures { result ≡ length self.now }
    {
        self.items.len()
    }
}

impl<X: Clone> Clone for List<X> {
    ghost use Rattle.std.specs.List.{AllZip};

    ghost is_clone = { λ v w. AllZip X.is_clone v w };

    fn clone(&self) -> Result<Self, AllocError> {
        Ok(List {
            items: self.items.clone()?,
        })
    }
}
