//! The purge of a source, itself a source.

ghost use Rattle.std.specs.Prelude.{◌≡◌, List, Option, Some};
ghost use Rattle.cas_streams.specs.Joined.{Stream};
ghost use Rattle.cas_streams.specs.Sources.{TakesFirst, Shrinks, KeepsFault};
ghost use Rattle.cas_streams.specs.declared.fragment.Fragment.{Fragment};
ghost use Rattle.cas_purge.specs.Purged.{unless, deletion_goes, purged};
ghost use Rattle.cas_purge.specs.Inner.Coming.{purged_to_come};

use crate::ends::Horizon;
use crate::rows::{kept_deletion, left_of};
use cas_cell::Deletion;
use cas_streams::{Fragment, FragmentSource};

/// A source without what may be dropped of it.
#[derive(Drop)]
pub struct Purger<I: FragmentSource> {
    source: I,
    horizon: Horizon,
    in_force: bool,
}

// The next fragment of which something stays.
fn next_left<I: FragmentSource>(
    source: &mut I,
    horizon: Horizon,
    in_force: &mut bool,
) -> Result<Option<Fragment>, I::Fault>
    ensures same_top { I.over_all source.new ≡ I.over_all source.old }
    ensures first { (fs : List Fragment) → purged_to_come horizon.before horizon.limit in_force.old (I.to_come source.old) ≡ Some fs
        → TakesFirst fs (purged_to_come horizon.before horizon.limit in_force.new (I.to_come source.new)) result }
    ensures ends { Shrinks (I.at_most source.old) (I.at_most source.new) result }
    ensures faults { KeepsFault (I.broken_by source.old) (I.broken_by source.new) result }
{
    while let Some(f) = source.next()? {
        let (left, behind) = left_of(horizon, *in_force, f);
        *in_force = behind;
        if let Some(g) = left {
            return Ok(Some(g));
        }
    }
    Ok(None)
}

impl<I: FragmentSource> Purger<I> {
    /// The source without what was dead before the second `before`, the moment less
    /// gc_grace_seconds, and is earlier in microseconds than `limit`, the least timestamp that is
    /// kept elsewhere under the key.
    pub fn new(source: I, before: i64, limit: i64) -> Self
        ensures fragments { (s : Stream) → I.to_come source ≡ Some s.fragments → I.over_all source ≡ s.top
            → ⟦<Purger<I> as FragmentSource>⟧.to_come result ≡ Some (purged before limit s).fragments }
        ensures top { ⟦<Purger<I> as FragmentSource>⟧.over_all result ≡ unless (deletion_goes before limit) (I.over_all source) }
        ensures broken { ⟦<Purger<I> as FragmentSource>⟧.broken_by result ≡ I.broken_by source }
    {
        Purger {
            source,
            horizon: Horizon { before, limit },
            in_force: false,
        }
    }

    /// The source, as far as it was read.
    pub fn end(self) -> I
        ensures { result ≡ self.source }
    {
        self.source
    }
}

impl<I: FragmentSource> FragmentSource for Purger<I> {
    ghost use Rattle.cas_purge.specs.Purged.{unless, deletion_goes};
    ghost use Rattle.cas_purge.specs.Inner.Coming.{purged_to_come};

    type Fault = I::Fault;

    ghost to_come = { λ p. purged_to_come p.horizon.before p.horizon.limit p.in_force (I.to_come p.source) };

    ghost over_all = { λ p. unless (deletion_goes p.horizon.before p.horizon.limit) (I.over_all p.source) };

    ghost at_most = { λ p. I.at_most p.source };

    ghost broken_by = { λ p. I.broken_by p.source };

    fn top(&self) -> Option<Deletion> {
        kept_deletion(self.horizon, self.source.top())
    }

    fn next(&mut self) -> Result<Option<Fragment>, I::Fault> {
        next_left(&mut self.source, self.horizon, &mut self.in_force)
    }
}
