//! The steps of a log, each a whole: an entry comes in, passes that meet are shown the log, lists and the
//! right to make passes change hands.
ghost use Rattle.std.specs.Prelude.{◌≡◌, ◌<◌, ◌%◌, ◌^◌, [], ◌∷◌, OnErr, IfOk};
ghost use Rattle.cas_history.specs.Log.{Each, Legal, counted};
ghost use Rattle.cas_history.specs.Hands.{Apart, Entered, Knows, Ready, both, gave, given, sees};

use crate::entries::{Entries, Tells};
use crate::pass::{Pass, Store};
use std::alloc::AllocError;

/// The log gets an entry of lists that one pass owns. The answer is how many entries of its word there
/// were before.
pub fn accept_alone<E: Entries, J: Store, T: Tells<E>>(
    one: &mut Pass<E, J>,
    word: usize,
    entry: &T,
) -> u64
    requires word { (E.rules.word (T.entry entry.now) ≡ word) × (word < 34) }
    requires ready { Ready E.rules (one.old ∷ []) (T.entry entry.now) }
    ensures entered { Entered E.rules (one.old ∷ []) (T.entry entry.now) one.new.saw result }
    ensures one { one.new ≡ sees one.new.saw one.old }
    ensures legal { Legal E.rules one.new.saw }
{
    let mut own = one.lend();
    let before = one.enter(&mut own, word, entry);
    one.take_first(own);
    before
}

/// The same for two passes.
pub fn accept_two<E: Entries, J: Store, T: Tells<E>>(
    one: &mut Pass<E, J>,
    two: &mut Pass<E, J>,
    word: usize,
    entry: &T,
) -> u64
    requires word { (E.rules.word (T.entry entry.now) ≡ word) × (word < 34) }
    requires ready { Ready E.rules (one.old ∷ two.old ∷ []) (T.entry entry.now) }
    ensures entered { Entered E.rules (one.old ∷ two.old ∷ []) (T.entry entry.now) one.new.saw result }
    ensures one { one.new ≡ sees one.new.saw one.old }
    ensures legal { Legal E.rules one.new.saw }
    ensures two { two.new ≡ sees one.new.saw two.old }
{
    let mut group = two.lend_to(one.lend());
    let before = one.enter(&mut group, word, entry);
    two.take_first(one.take_first(group));
    before
}

/// The same for three passes, as those of a room, a session and a shard at an accept.
pub fn accept_three<E: Entries, J: Store, T: Tells<E>>(
    one: &mut Pass<E, J>,
    two: &mut Pass<E, J>,
    three: &mut Pass<E, J>,
    word: usize,
    entry: &T,
) -> u64
    requires word { (E.rules.word (T.entry entry.now) ≡ word) × (word < 34) }
    requires ready { Ready E.rules (one.old ∷ two.old ∷ three.old ∷ []) (T.entry entry.now) }
    ensures entered { Entered E.rules (one.old ∷ two.old ∷ three.old ∷ []) (T.entry entry.now) one.new.saw result }
    ensures one { one.new ≡ sees one.new.saw one.old }
    ensures legal { Legal E.rules one.new.saw }
    ensures two { two.new ≡ sees one.new.saw two.old }
    ensures three { three.new ≡ sees one.new.saw three.old }
{
    let mut group = three.lend_to(two.lend_to(one.lend()));
    let before = one.enter(&mut group, word, entry);
    three.take_first(two.take_first(one.take_first(group)));
    before
}

/// The same for five passes, as those of a shard's changes and mutations, a room, a book and a worker at an
/// install.
pub fn accept_five<E: Entries, J: Store, T: Tells<E>>(
    one: &mut Pass<E, J>,
    two: &mut Pass<E, J>,
    three: &mut Pass<E, J>,
    four: &mut Pass<E, J>,
    five: &mut Pass<E, J>,
    word: usize,
    entry: &T,
) -> u64
    requires word { (E.rules.word (T.entry entry.now) ≡ word) × (word < 34) }
    requires ready { Ready E.rules (one.old ∷ two.old ∷ three.old ∷ four.old ∷ five.old ∷ []) (T.entry entry.now) }
    ensures entered { Entered E.rules (one.old ∷ two.old ∷ three.old ∷ four.old ∷ five.old ∷ []) (T.entry entry.now) one.new.saw result }
    ensures one { one.new ≡ sees one.new.saw one.old }
    ensures legal { Legal E.rules one.new.saw }
    ensures two { two.new ≡ sees one.new.saw two.old }
    ensures three { three.new ≡ sees one.new.saw three.old }
    ensures four { four.new ≡ sees one.new.saw four.old }
    ensures five { five.new ≡ sees one.new.saw five.old }
{
    let first = three.lend_to(two.lend_to(one.lend()));
    let mut group = five.lend_to(four.lend_to(first));
    let before = one.enter(&mut group, word, entry);
    let last = three.take_first(two.take_first(one.take_first(group)));
    five.take_first(four.take_first(last));
    before
}

/// Two passes meet, and are shown the log so far. The answer is how many entries of the word it has.
pub fn look<E: Entries, J: Store>(one: &mut Pass<E, J>, two: &mut Pass<E, J>, word: usize) -> u64
    requires word { word < 34 }
    ensures known { Each (Knows E.rules one.new.saw) (one.old ∷ two.old ∷ []) }
    ensures one { one.new ≡ sees one.new.saw one.old }
    ensures legal { Legal E.rules one.new.saw }
    ensures two { two.new ≡ sees one.new.saw two.old }
    ensures apart { Apart (one.old ∷ two.old ∷ []) }
    ensures count { result ≡ counted E.rules word one.new.saw % 2 ^ 64 }
{
    let mut group = two.lend_to(one.lend());
    let count = one.show(&mut group, word);
    two.take_first(one.take_first(group));
    count
}

/// Three passes meet, and are shown the log so far.
pub fn look_three<E: Entries, J: Store>(
    one: &mut Pass<E, J>,
    two: &mut Pass<E, J>,
    three: &mut Pass<E, J>,
)
    ensures known { Each (Knows E.rules one.new.saw) (one.old ∷ two.old ∷ three.old ∷ []) }
    ensures one { one.new ≡ sees one.new.saw one.old }
    ensures legal { Legal E.rules one.new.saw }
    ensures two { two.new ≡ sees one.new.saw two.old }
    ensures three { three.new ≡ sees one.new.saw three.old }
    ensures apart { Apart (one.old ∷ two.old ∷ three.old ∷ []) }
{
    let mut group = three.lend_to(two.lend_to(one.lend()));
    one.show(&mut group, 0);
    three.take_first(two.take_first(one.take_first(group)));
}

/// A pass that has ended: the keeper owns what it owned.
pub fn join<E: Entries, J: Store>(keeper: &mut Pass<E, J>, ended: Pass<E, J>)
    ensures known { Each (Knows E.rules keeper.new.saw) (keeper.old ∷ ended ∷ []) }
    ensures legal { Legal E.rules keeper.new.saw }
    ensures keeper { keeper.new ≡ both keeper.new.saw keeper.old ended }
    ensures apart { Apart (keeper.old ∷ ended ∷ []) }
{
    let mut ended = ended;
    let mut group = ended.lend_to(keeper.lend());
    keeper.merge(&mut group);
    keeper.take_first(group);
}

/// A pass that owns the next lists.
pub fn deal<E: Entries, J: Store>(
    maker: &mut Pass<E, J>,
    lists: usize,
) -> Result<Pass<E, J>, AllocError>
    ensures ok { IfOk result (λ p. (p ≡ given lists maker.old) × (maker.new ≡ gave lists maker.old)) }
    ensures err { OnErr result (maker.new ≡ maker.old) }
{
    maker.deal_picked::<std::marker::Brand>(lists)
}
