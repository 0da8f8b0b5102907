//! What the clock of a store reads.

ghost use Rattle.std.specs.Prelude.{◌≡◌};
ghost use Rattle.cas_types.specs.Limits.{IsMoment};
ghost use Rattle.cas_reference.specs.Kept.{IsTime};
ghost use Rattle.cas_reference.specs.Replies.{IsReading, clamped};

use cas_io::Clock;
use cas_types::LAST_MICROSECOND;
use cas_words::ClockKind;

fn clamped(raw: i64) -> i64
    ensures value { result ≡ clamped raw }
    ensures time { IsTime result }
{
    raw.max(0).min(LAST_MICROSECOND)
}

/// A reading of the clock, where the manual one was set to so many seconds.
pub(crate) fn reading<C: Clock>(kind: ClockKind, clock: &C, seconds: i64) -> i64
    requires { IsMoment seconds }
    ensures given { IsReading kind (C.may_give clock.now) seconds result }
    ensures time { IsTime result }
{
    match kind {
        ClockKind::Manual => seconds * 1_000_000,
        ClockKind::System => clamped(clock.read()),
    }
}
