//! What is said of one row.

ghost use Rattle.std.specs.Prelude.{◌≡◌, ◌≤◌, ◌<◌, ◌++◌, [], length, slice_set, slice_index_or, OnOk, OnErr, IfErr};
ghost use Rattle.std.specs.BTreeMap.{insert_entry};
ghost use Rattle.std.specs.List.{insert};
ghost use Rattle.std.specs.Result.{MatchResult};
ghost use Rattle.cas_partition.specs.Spots.{place_cmp, blank, joined_content};
ghost use Rattle.cas_partition.specs.Inner.Few.{StandsAt, FitsAt, GivesPlace};
ghost use Rattle.cas_partition.specs.declared.spot.Place.{Place as PlaceOf};
ghost use Rattle.cas_partition.specs.declared.spot.Content.{Content as ContentOf};
ghost use Rattle.cas_partition.specs.Inner.Rows.{AreInOrder, with_place, joined_place, has_none};

use crate::spot::{Content, Place};
use cas_types::TypeTag;
use std::alloc::{AllocError, Global};
use std::cmp::Ordering;
use std::collections::BTreeMap;
use std::collections::btree_map::{Entry, Iter};
use std::marker::Model;

// How many places a row has at most before it gets a map: a map's first leaf alone has room for more.
const FEW: usize = 8;

/// What is said of a row or of the static row, place by place. A vector has the first places, and a
/// map those behind them: all of them, once there are more than a few. Contracts see the list of the
/// entries.
#[derive(Drop)]
pub struct Body {
    few: Vec<(Place, Content)>,
    many: BTreeMap<Place, Content>,
}

impl Model for Body {
    ghost use Rattle.std.specs.Prelude.{List, ◌++◌};
    ghost use Rattle.cas_partition.specs.Inner.Rows.{AreInOrder};
    ghost use Rattle.cas_partition.specs.declared.spot.Content.{Content};
    ghost use Rattle.cas_partition.specs.declared.spot.Place.{Place};

    ghost Value = { List (Place × Content) };

    ghost view = { λ b. b.few.items ++ b.many.entries };

    ghost invariant = { λ b. AreInOrder (b.few.items ++ b.many.entries) };
}

/// Places of a row in order, and what is said there. Contracts see the list of those that are left.
#[derive(Drop)]
pub(crate) struct Places<'a> {
    few: &'a [(Place, Content)],
    many: Iter<'a, Place, Content>,
}

impl<'a> Model for Places<'a> {
    ghost use Rattle.std.specs.Prelude.{List, ◌++◌};
    ghost use Rattle.cas_partition.specs.declared.spot.Content.{Content};
    ghost use Rattle.cas_partition.specs.declared.spot.Place.{Place};

    ghost Value = { List (Place × Content) };

    ghost view = { λ p. p.few.now ++ p.many };
}

impl<'a> Places<'a> {
    /// The next of them.
    pub(crate) fn next(&mut self) -> Option<(&'a Place, &'a Content)>
        ensures { GivesPlace self.old result self.new }
    {
        match self.few {
            [(place, content), later @ ..] => {
                self.few = later;
                Some((place, content))
            }
            [] => self.many.next(),
        }
    }
}

// Where the place stands among these, or would stand.
fn seek(entries: &[(Place, Content)], place: &Place) -> Result<usize, usize>
    ensures { MatchResult result (StandsAt place.now entries.now) (FitsAt place.now entries.now) }
{
    let mut at = 0;
    let mut rest = entries;
    while let [(there, _), later @ ..] = rest {
        match place.cmp(there) {
            Ordering::Less => return Err(at),
            Ordering::Equal => return Ok(at),
            Ordering::Greater => {
                at += 1;
                rest = later;
            }
        }
    }
    Err(at)
}

// One more of few places, for which a vector gets just the room it needs.
fn put_at(
    few: &mut Vec<(Place, Content)>,
    at: usize,
    place: Place,
    tag: Option<TypeTag>,
) -> Result<(), AllocError>
    requires { at ≤ length few.old.items }
    ensures ok { OnOk result (few.new.items ≡ insert few.old.items at (place, blank tag)) }
    ensures err { OnErr result (few.new.items ≡ few.old.items) }
{
    few.reserve_exact(1)?;
    few.insert(at, (place, Content::blank(tag)))?;
    Ok(())
}

// Puts what is said at a place among the many. After an error it comes back.
fn put(many: &mut BTreeMap<Place, Content>, entry: (Place, Content)) -> Result<(), (Place, Content)>
    ensures ok { OnOk result (many.new.entries ≡ insert_entry place_cmp many.old.entries entry.0 entry.1) }
    ensures err { OnErr result (many.new.entries ≡ many.old.entries) }
    ensures back { IfErr result (λ e. e ≡ entry) }
{
    let (place, content) = entry;
    match many.insert(place, content) {
        Ok(_) => Ok(()),
        Err(refused) => Err(refused.value),
    }
}

// Moves the few to the front of the many, the last first. After an error some may have been moved.
fn move_few(
    few: &mut Vec<(Place, Content)>,
    many: &mut BTreeMap<Place, Content>,
) -> Result<(), AllocError>
    requires { AreInOrder (few.old.items ++ many.old.entries) }
    ensures same { few.new.items ++ many.new.entries ≡ few.old.items ++ many.old.entries }
    ensures moved { OnOk result (few.new.items ≡ []) }
{
    while let Some(last) = few.pop() {
        if let Err(last) = put(many, last) {
            few.push_reserved(last);
            return Err(AllocError);
        }
    }
    few.shrink_to_fit();
    Ok(())
}

// Makes the place, if it isn't there.
fn reserve_at(
    places: &mut BTreeMap<Place, Content>,
    place: Place,
    tag: Option<TypeTag>,
) -> Result<(), AllocError>
    ensures ok { OnOk result (places.new.entries ≡ with_place place tag places.old.entries) }
    ensures err { OnErr result (places.new.entries ≡ places.old.entries) }
{
    match places.entry(place)? {
        Entry::Occupied(_) => {}
        Entry::Vacant(vacant) => {
            vacant.insert(Content::blank(tag));
        }
    }
    Ok(())
}

// Joins what is said at one of few places.
fn join_few(few: &mut Vec<(Place, Content)>, at: usize, content: Content)
    requires { at < length few.old.items }
    ensures { (d : PlaceOf × ContentOf) → few.new.items ≡ slice_set few.old.items at
        ((slice_index_or few.old.items at d).0, joined_content (slice_index_or few.old.items at d).1 content) }
{
    few[at].1.join(content);
}

// Joins what is said at the place, if it is there.
fn join_at(places: &mut BTreeMap<Place, Content>, place: &Place, content: Content)
    ensures { places.new.entries ≡ joined_place place.now content places.old.entries }
{
    if let Some(there) = places.get_mut(place) {
        there.join(content);
    }
}

impl Body {
    /// Nothing is said.
    pub(crate) fn new(alloc: Global) -> Self
        ensures { result ≡ [] }
    {
        Body {
            few: Vec::new(alloc),
            many: BTreeMap::new(alloc),
        }
    }

    /// Takes the room that the first places of a row will want.
    pub(crate) fn make_room(&mut self, places: usize) -> Result<(), AllocError>
        ensures { self.new ≡ self.old }
    {
        if self.is_empty() {
            self.few.reserve_exact(places.min(FEW))?;
        }
        Ok(())
    }

    /// Makes a place for what will be said there.
    pub(crate) fn reserve(&mut self, place: Place, tag: Option<TypeTag>) -> Result<(), AllocError>
        ensures ok { OnOk result (self.new ≡ with_place place tag self.old) }
        ensures err { OnErr result (self.new ≡ self.old) }
    {
        let at = match seek(&self.few, &place) {
            Ok(_) => return Ok(()),
            Err(at) => at,
        };
        if self.many.is_empty() && self.few.len() < FEW {
            return put_at(&mut self.few, at, place, tag);
        }
        move_few(&mut self.few, &mut self.many)?;
        reserve_at(&mut self.many, place, tag)
    }

    /// Joins what is said at a place that was made.
    pub(crate) fn join(&mut self, place: Place, content: Content)
        ensures { self.new ≡ joined_place place content self.old }
    {
        match seek(&self.few, &place) {
            Ok(at) => join_few(&mut self.few, at, content),
            Err(_) => join_at(&mut self.many, &place, content),
        }
    }

    /// Whether there is no place yet.
    pub(crate) fn is_empty(&self) -> bool
        ensures { result ≡ has_none self.now }
    {
        self.few.is_empty() && self.many.is_empty()
    }

    /// What is said, in order.
    pub(crate) fn iter(&self) -> Places<'_>
        ensures { result ≡ self.now }
    {
        Places {
            few: &self.few,
            many: self.many.iter(),
        }
    }
}
