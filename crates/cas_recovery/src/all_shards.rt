//! Shards in memory that take the mutations of a log.

use cas_disk::Sealed;
use cas_shard::Shard;
use std::alloc::Global;
use std::marker::Model;

/// Each shard that a mutation may name.
#[derive(Drop)]
pub(crate) struct AllShards<S: Sealed> {
    pub(crate) shards: Vec<Shard<S>>,
}

impl<S: Sealed> Model for AllShards<S> {
    ghost use Rattle.std.specs.Prelude.{◌≡◌, List, length};
    ghost use Rattle.std.specs.Coded.{codes};
    ghost use Rattle.cas_memtable.specs.contracts.parts.Parts as p;
    ghost use Rattle.cas_shard.specs.Stands.{ShardState};

    ghost Value = { List ShardState };

    ghost coded = { Prim.hlevel (codes, p.the_row.coded) };

    ghost view = { λ a. a.shards.items };

    ghost invariant = { λ a. length a.shards.items ≡ 256 };
}

/// Shards that take the mutations of a log, each as it is read; none once memory ran out.
#[derive(Drop)]
pub(crate) struct Restoring<S: Sealed> {
    pub(crate) alloc: Global,
    pub(crate) shards: Option<AllShards<S>>,
}
