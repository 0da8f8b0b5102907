//! Which shard a partition key belongs to.

ghost use Rattle.std.specs.Prelude.{◌≡◌, ◌≤◌};
ghost use Rattle.cas_types.specs.Keys.{shard_of};

/// The shard, of so many, that a partition key belongs to.
pub fn shard_of(key: &[u8], shards: u8) -> u8
    requires { 1 ≤ shards }
    ensures { result ≡ shard_of key.now shards }
{
    let mut total: u128 = 0;
    for byte in key {
        total += *byte as u128;
    }
    (total % shards as u128) as u8
}
