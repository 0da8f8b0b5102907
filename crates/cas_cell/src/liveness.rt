//! What an INSERT leaves of a row beside its columns.

ghost use Rattle.std.specs.Prelude.{◌≡◌};
ghost use Rattle.std.specs.Ordering.{is_gt};
ghost use Rattle.cas_cell.specs.Lives.{live_at, live_rank, live_second, live_ttl, live_cmp, live_lives};

/// What an `INSERT` leaves of a row beside its columns, which keeps the row alive though all of
/// its columns are null.
#[derive(Clone, Copy)]
pub enum Liveness {
    /// Of an `INSERT` with no TTL, at its timestamp in microseconds.
    Plain { at: i64 },
    /// Of an `INSERT` with a TTL, which ends at the second `expiry`.
    Expiring { at: i64, expiry: i64, ttl: u32 },
}

impl Liveness {
    /// The timestamp of the `INSERT`.
    pub fn at(&self) -> i64
        ensures { result ≡ live_at self.now }
    {
        match self {
            Liveness::Plain { at } => *at,
            Liveness::Expiring { at, .. } => *at,
        }
    }

    fn rank(&self) -> u8
        ensures { result ≡ live_rank self.now }
    {
        match self {
            Liveness::Plain { .. } => 0,
            Liveness::Expiring { .. } => 1,
        }
    }

    fn second(&self) -> i64
        ensures { result ≡ live_second self.now }
    {
        match self {
            Liveness::Plain { .. } => 0,
            Liveness::Expiring { expiry, .. } => *expiry,
        }
    }

    fn ttl(&self) -> u32
        ensures { result ≡ live_ttl self.now }
    {
        match self {
            Liveness::Plain { .. } => 0,
            Liveness::Expiring { ttl, .. } => *ttl,
        }
    }
}

/// Whether `a` stands over `b`: the later timestamp, and at one timestamp the one with a TTL, the
/// later expiry, the greater TTL.
pub fn live_wins(a: &Liveness, b: &Liveness) -> bool
    ensures { result ≡ is_gt (live_cmp a.now b.now) }
{
    let times = a.at().cmp(&b.at());
    let ranks = a.rank().cmp(&b.rank());
    let seconds = a.second().cmp(&b.second());
    let ttls = a.ttl().cmp(&b.ttl());
    times.then(ranks.then(seconds.then(ttls))).is_gt()
}

/// Whether the row still lives by it: with no TTL always, and with one until the second `expiry`.
pub fn live_alive(l: &Liveness, now: i64) -> bool
    ensures { result ≡ live_lives now l.now }
{
    match l {
        Liveness::Plain { .. } => true,
        Liveness::Expiring { expiry, .. } => now < *expiry,
    }
}
