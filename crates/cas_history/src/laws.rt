//! What holds of two seats that meet, whatever ran before, in whichever thread.
ghost use Rattle.std.specs.Prelude.{◌≡◌, ℕ, ◌≤◌};
ghost use mathlib.Core.List.{IsPrefix};
ghost use Rattle.cas_history.specs.Items.{listed, log_list, front_list};
ghost use Rattle.cas_history.specs.Last.{last_number};
ghost use Rattle.cas_history.specs.Laws.{writes_of, writes_in, Stands};

use crate::front::{Front, Log, Session};
use crate::{Store, look};

/// A session is shown a shard. The answer is the number of the shard's last mutation, which isn't below one
/// that the session was shown; from here on the session has the shard's list. What it was shown before, of
/// any list, it still holds.
pub fn show<E, J: Store>(front: &mut Front<E, J>, session: &mut Session<E, J>) -> u64
    ensures number { (result ≡ front.old.number) × (last_number (listed (front_list front.old.shard) session.old.pass.saw) ≤ result) }
    ensures front { (front.new.number ≡ front.old.number) × (front.new.shard ≡ front.old.shard)
        × (listed (front_list front.old.shard) front.new.pass.saw ≡ listed (front_list front.old.shard) front.old.pass.saw) }
    ensures session { (session.new.list ≡ session.old.list) × (session.new.calls ≡ session.old.calls)
        × (listed session.old.list session.new.pass.saw ≡ listed session.old.list session.old.pass.saw) }
    ensures shown { listed (front_list front.old.shard) session.new.pass.saw ≡ listed (front_list front.old.shard) front.old.pass.saw }
    ensures holds { (list : ℕ) → IsPrefix (listed list session.old.pass.saw) (listed list session.new.pass.saw) }
    ensures seen { (session.new.pass.saw ≡ front.new.pass.saw) × IsPrefix front.old.pass.saw front.new.pass.saw
        × IsPrefix session.old.pass.saw front.new.pass.saw }
{
    look(&mut front.pass, &mut session.pass, 0);
    front.number
}

/// A session's mutations in the room's list are those of its own list: each once, in its order, and no
/// others.
pub fn session_stands<E, J: Store>(log: &mut Log<E, J>, session: &mut Session<E, J>)
    ensures law { writes_of session.old.list (listed log_list log.old.pass.saw) ≡ writes_of session.old.list (listed session.old.list session.old.pass.saw) }
    ensures same { (session.new.list ≡ session.old.list) × (session.new.calls ≡ session.old.calls) × IsPrefix session.old.pass.saw session.new.pass.saw }
{
    look(&mut log.pass, &mut session.pass, 0);
}

/// A shard's mutations in the room's list are those of the shard's list, in its order.
pub fn shard_stands<E, J: Store>(log: &mut Log<E, J>, front: &mut Front<E, J>)
    ensures law { writes_in front.old.shard (listed log_list log.old.pass.saw)
        ≡ writes_in front.old.shard (listed (front_list front.old.shard) front.old.pass.saw) }
    ensures same { (front.new.number ≡ front.old.number) × (front.new.shard ≡ front.old.shard) × IsPrefix front.old.pass.saw front.new.pass.saw }
{
    look(&mut log.pass, &mut front.pass, 0);
}

/// One history, whatever ran, in whichever threads: what the room's list has to do with all others.
pub fn history_stands<E, J: Store>(log: &Log<E, J>)
    ensures law { Stands (listed log_list log.now.pass.saw) (λ shard. listed (front_list shard) log.now.pass.saw) (λ session. listed session log.now.pass.saw) }
{
    log.pass.stands();
}
