// Two clients, in a thread each, write to one shard and look at it, through a lock. When both have ended, a
// lone line has all to itself, and the one history holds.
ghost use Rattle.std.specs.Prelude.{◌≡◌, ◌+◌, ◌<◌, ◌≤◌, max};
ghost use Rattle.cas_history.specs.Items.{listed, log_list, front_list};
ghost use Rattle.cas_history.specs.Last.{Idle};
ghost use Rattle.cas_history.specs.Laws.{Stands};

use cas_history::{Front, Item, Kept, Log, Opened, Session, Store, Tells, show, write};
use cas_lifecycle::{Maker, begin_alone, conclude};
use std::marker::Brand;
use std::process::Abort;
use std::sync::{Mutex, Wait};
use std::test::*;
use std::thread::{Threads, join};

#[derive(Drop)]
pub struct Value(pub u64);

impl Tells<u64> for Value {
    ghost entry = { λ v. v.0 };
}

/// What lies under the lock.
#[derive(Drop)]
struct Node<J: Store> {
    log: Log<u64, J>,
    front: Front<u64, J>,
}

/// A client's session, and how many of its rounds answered a number above the last that it was answered or
/// shown.
#[derive(Drop)]
struct Client<J: Store> {
    session: Session<u64, J>,
    good: u64,
    ghost idle: { Idle (listed session.list session.pass.saw) },
}

// One round: it writes, where numbers are left, and looks. The answer is the last number shown.
fn round<J: Store>(node: &mut Node<J>, client: &mut Client<J>, last: u64, value: u64) -> u64 {
    if node.front.number() >= 1_000_000 || client.session.calls() >= 1_000_000 {
        return last;
    }
    let number = write(
        &mut node.log,
        &mut node.front,
        &mut client.session,
        &Value(value),
    );
    let shown = show(&mut node.front, &mut client.session);
    let rose = last < number && number <= shown;
    client.good = client.good.saturating_add(rose as u64);
    shown
}

fn run_client<J: Store>(rt: &impl Wait, node: &Mutex<Node<J>>, mut client: Client<J>) -> Client<J> {
    let mut last = 0;
    for value in 0..10_000u64 {
        let mut node = node.lock(rt);
        last = round(&mut node, &mut client, last, value);
    }
    client
}

fn new_client<J: Store>(rt: &impl Abort, maker: &mut Maker<u64, J>) -> Client<J>
    requires { (maker.old.next < 4294967000) × (maker.old.out < 100) }
    ensures out { maker.new.out ≡ maker.old.out + 1 }
    ensures next { maker.new.next ≤ max maker.old.next 96 + 2 }
{
    let session = maker.session().expect(rt, "memory");
    Client { session, good: 0 }
}

// The history, how many rounds of each client were good, and how many mutations the shard has.
fn clients<J: Store + Send + Sync, R: Threads + Wait + Abort + Sync>(
    rt: &R,
    opened: Opened<Item<u64>>,
) -> (Kept<Item<u64>>, (u64, u64, u64))
    requires { opened.seat.table_id ≡ J.table }
    ensures law { Stands (listed log_list result.0.saw) (λ shard. listed (front_list shard) result.0.saw) (λ session. listed session result.0.saw) }
{
    let mut maker = Maker::<u64, J>::first(opened);
    let log = Log::new(maker.fresh(0).expect(rt, "memory"));
    let front = Front::new(maker.fresh(16).expect(rt, "memory"), 0, 0);
    let mut zero = maker.session().expect(rt, "memory");
    let mut works = maker.works().expect(rt, "memory");
    let one = new_client(rt, &mut maker);
    let two = new_client(rt, &mut maker);
    let node = Mutex::new(Node { log, front });
    let (one, two) = join(
        rt,
        || run_client(rt, &node, one),
        || run_client(rt, &node, two),
    );
    let Node { log, front } = node.into_inner();
    let counts = (one.good, two.good, front.number());
    maker.keep(one.session);
    maker.keep(two.session);
    begin_alone(&mut works, &mut maker, &mut zero, &Value(1));
    works.end(&mut zero);
    maker.keep(zero);
    (conclude(maker, log), counts)
}

/// Ten thousand rounds each: every answer is above what the client had seen, and the shard's last number is
/// how many mutations there were.
#[test]
fn two_clients(rt: HostRuntime) {
    let opened = Opened::<Item<u64>>::new(rt.alloc()).expect(&rt, "memory");
    let (_history, counts) = clients::<Brand, _>(&rt, opened);
    assert!(rt; counts == (10_000, 10_000, 20_000));
}
