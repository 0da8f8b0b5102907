//! What the accepted mutations say of a shard.

ghost use Rattle.std.specs.Prelude.{◌≡◌, if◌then◌else◌};
ghost use Rattle.std.specs.List.{All};
ghost use Rattle.cas_reference.specs.Kept.{IsKept, IsTail, tail_after, tail_of};

use cas_atoms::Mutation;

/// The number of a shard's last mutation, the last timestamp that it drew, and the moment of its last mutation.
#[derive(Clone, Copy)]
pub struct Tail {
    pub number: u64,
    pub drawn: i64,
    pub moment: i64,
}

/// Of a shard without a mutation.
const NO_TAIL: Tail = Tail {
    number: 0,
    drawn: -2,
    moment: 0,
};

fn drawn_after(drawn: i64, mutation: &Mutation) -> i64
    ensures { result ≡ (if mutation.now.drawn then mutation.now.at else drawn) }
{
    if mutation.drawn { mutation.at } else { drawn }
}

// The shard's tail after one mutation more, which may be of another.
fn tail_after(shard: u8, tail: Tail, mutation: &Mutation) -> Tail
    requires tail { IsTail tail }
    requires kept { IsKept mutation.now }
    ensures value { result ≡ tail_after shard tail mutation.now }
    ensures within { IsTail result }
{
    if mutation.shard != shard {
        return tail;
    }
    Tail {
        number: mutation.number,
        drawn: drawn_after(tail.drawn, mutation),
        moment: mutation.moment,
    }
}

/// What the mutations say of the shard. It looks at each of them.
#[tactic(auto, unfolding(crate::specs::Kept::tail_of))]
pub(crate) fn tail_of(shard: u8, mutations: &[Mutation]) -> Tail
    requires { All IsKept mutations.now }
    ensures value { result ≡ tail_of shard mutations.now }
    ensures within { IsTail result }
{
    let mut tail = NO_TAIL;
    for mutation in mutations {
        tail = tail_after(shard, tail, mutation);
    }
    tail
}
