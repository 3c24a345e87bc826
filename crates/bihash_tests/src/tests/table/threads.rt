//! Threads that call one table at once, each with a caller of its own.
ghost use Rattle.std.specs.Prelude.{◌≡◌};
ghost use Rattle.std.specs.Thread.{IsSync};
ghost use Rattle.bihash_words.specs.declared.patch.Change.TheVariants.{Keep};
ghost use Rattle.bihash_rule.specs.Views.{nothing_held};
ghost use Rattle.bihash_steps.specs.BucketSteps.{HoldsClean};

use super::Call::{Add, Search};
use super::{Eight, Row, first_wrong, table_answer, table_refused, two_callers};
use bihash_table::{Caller, Sessions};
use bihash_words::Reply::{Changed, Kept};
use bihash_words::{BucketWord, Change, Patch, Reply, Tiny};
use std::sync::Wait;
use std::sync::atomic::{AtomicBool, AtomicU64, Ordering};
use std::test::Fail;
use std::thread::{Threads, join};

// Eight pages, and 5000 writes to a bucket.
type Deep = Tiny<8, 5000>;

// One page, and 100000 writes to a bucket.
type OnePage = Tiny<1, 100000>;

// Each of two threads writes a key of one bucket a thousand times.
#[test]
fn two_writers(rt: HostRuntime) -> Result<(), Fail> {
    let Some((table, first, second)) = two_callers::<Deep>(rt.alloc()) else {
        return table_refused();
    };
    let (mut both, all_changed) = write_both(&rt, &table, first, second);
    assert!(rt; all_changed);
    const FOUND: [Row; 2] = [
        (Search, [0, 0], Kept(Some(1000)), (0, 2000)),
        (Search, [2, 0], Kept(Some(1000)), (0, 2000)),
    ];
    assert!(rt; first_wrong(&table, &mut both, &FOUND) == None);
    Ok(())
}

// For a test of two threads: two callers, joined after their writes, and whether each write changed the table.
fn write_both<R: Threads + Wait + Sync>(
    rt: &R,
    table: &Sessions<Deep>,
    first: Caller<Deep>,
    second: Caller<Deep>,
) -> (Caller<Deep>, bool)
    requires own { (first.seat.row ≡ table.now.row) × (second.seat.row ≡ table.now.row) }
    requires free { (first.seat.view.holds ≡ nothing_held) × (second.seat.view.holds ≡ nothing_held) }
    ensures own { result.0.seat.row ≡ table.now.row }
    ensures free { result.0.seat.view.holds ≡ nothing_held }
{
    let (one, two) = join(
        rt,
        || -> (Caller<Deep>, bool)
            requires { IsSync R.row × (first.seat.row ≡ table.now.row) × (first.seat.view.holds ≡ nothing_held) }
            ensures { (result.0.seat.row ≡ table.entry.now.row) × (result.0.seat.view.holds ≡ nothing_held) }
        { write_thousand(table, rt, first, 0) },
        || -> (Caller<Deep>, bool)
            requires { IsSync R.row × (second.seat.row ≡ table.now.row) × (second.seat.view.holds ≡ nothing_held) }
            ensures { (result.0.seat.row ≡ table.entry.now.row) × (result.0.seat.view.holds ≡ nothing_held) }
        { write_thousand(table, rt, second, 2) },
    );
    (table.join(one.0, two.0), one.1 && two.1)
}

// For a test of two threads: the caller, and whether each of a thousand writes changed the table.
fn write_thousand<R: Wait>(
    table: &Sessions<Deep>,
    rt: &R,
    mut caller: Caller<Deep>,
    key: u64,
) -> (Caller<Deep>, bool)
    requires own { caller.seat.row ≡ table.now.row }
    requires free { caller.seat.view.holds ≡ nothing_held }
    ensures own { result.0.seat.row ≡ table.now.row }
    ensures free { result.0.seat.view.holds ≡ nothing_held }
{
    let mut all_changed = true;
    for value in 1..1001u32 {
        let reply = table.add(rt, &mut caller, &[key, 0], u64::from(value));
        all_changed &= matches!(reply, Reply::Changed(_));
    }
    (caller, all_changed)
}

/// Keeps what it finds, once another thread said that it passed, and counts how often it is asked.
#[derive(Drop)]
struct KeepsLate {
    asked: AtomicU64,
    entered: AtomicBool,
    passed: AtomicBool,
    gave_up: AtomicBool,
}

impl KeepsLate {
    // For a test of two threads: turns until this flag is raised, or for so long that the other thread can't be
    // running.
    fn wait_for(&self, flag: &AtomicBool) {
        for _ in 0..100_000_000u64 {
            if flag.load(Ordering::SeqCst) {
                return;
            }
        }
        self.gave_up.store(true, Ordering::SeqCst);
    }
}

impl Patch for KeepsLate {
    ghost decision = { λ patch old. Keep };

    // For a test of two threads: tells the other one that it decides, and keeps what it found once that one passed.
    fn decide(&self, _old: Option<u64>) -> Change {
        self.asked.fetch_add(1, Ordering::SeqCst);
        self.entered.store(true, Ordering::SeqCst);
        self.wait_for(&self.passed);
        Change::Keep
    }
}

// While one thread decides to keep what its update found, once, the search of another for the same key is answered:
// neither has a lock.
#[test]
fn two_threads_keep_and_search(rt: HostRuntime) -> Result<(), Fail> {
    let Some((table, mut first, second)) = two_callers::<Eight>(rt.alloc()) else {
        return table_refused();
    };
    const ADDED: [Row; 1] = [(Add(7), [0, 0], Changed(None), (0, 1))];
    assert!(rt; first_wrong(&table, &mut first, &ADDED) == None);
    let patch = KeepsLate {
        asked: AtomicU64::new(0),
        entered: AtomicBool::new(false),
        passed: AtomicBool::new(false),
        gave_up: AtomicBool::new(false),
    };
    let (kept, found) = keep_and_search(&rt, &table, first, second, &patch);
    assert!(rt; kept == Some(Reply::Kept(Some(7))));
    assert!(rt; found == Some(Some(7)));
    assert!(rt; !patch.gave_up.load(Ordering::SeqCst));
    assert!(rt; patch.asked.load(Ordering::SeqCst) == 1);
    Ok(())
}

// One thread updates the key 0, and the other searches it while the first decides.
fn keep_and_search<R: Threads + Sync>(
    rt: &R,
    table: &Sessions<Eight>,
    mut first: Caller<Eight>,
    mut second: Caller<Eight>,
    patch: &KeepsLate,
) -> (Option<Reply>, Option<Option<u64>>)
    requires own { (first.seat.row ≡ table.now.row) × (second.seat.row ≡ table.now.row) }
    requires free { (first.seat.view.holds ≡ nothing_held) × (second.seat.view.holds ≡ nothing_held) }
{
    join(
        rt,
        || -> Option<Reply> { table.try_update(&mut first, &[0, 0], patch).ok() },
        || -> Option<Option<u64>> {
            patch.wait_for(&patch.entered);
            let found = table.try_search(&mut second, &[0, 0]).ok();
            patch.passed.store(true, Ordering::SeqCst);
            found
        },
    )
}

// A search is tried again for as long as another caller has the lock of the key's bucket, which is far longer here than a few
// tries take.
#[test]
fn a_search_outlasts_a_lock(rt: HostRuntime) -> Result<(), Fail> {
    let Some((table, mut first, second)) = two_callers::<Eight>(rt.alloc()) else {
        return table_refused();
    };
    const ADDED: [Row; 1] = [(Add(7), [0, 0], Changed(None), (0, 1))];
    assert!(rt; first_wrong(&table, &mut first, &ADDED) == None);
    let word = table.row.load_bucket(&mut first.seat, 0);
    assert!(rt; !word.locked());
    assert!(rt; table.row.lock_from(&mut first.seat, 0, word));
    let found = search_under_lock(&rt, &table, first, second, word);
    assert!(rt; found == Some(7));
    Ok(())
}

// One thread has the lock of the bucket 0 and opens it late, and the other searches the key 0 meanwhile.
fn search_under_lock<R: Threads + Wait + Sync>(
    rt: &R,
    table: &Sessions<Eight>,
    mut first: Caller<Eight>,
    mut second: Caller<Eight>,
    word: BucketWord,
) -> Option<u64>
    requires own { (first.seat.row ≡ table.now.row) × (second.seat.row ≡ table.now.row) }
    requires locked { HoldsClean first.seat.view 0 word }
    requires free { second.seat.view.holds ≡ nothing_held }
{
    let began = AtomicBool::new(false);
    let (_, found) = join(
        rt,
        || -> () { open_late(table, &mut first, word, &began) },
        || -> Option<u64>
            requires { IsSync R.row × (second.seat.row ≡ table.now.row) × (second.seat.view.holds ≡ nothing_held) }
        {
            began.store(true, Ordering::SeqCst);
            table.search(rt, &mut second, &[0, 0])
        },
    );
    found
}

// For a test of two threads: opens the lock of the bucket 0 a million looks after the other thread began.
fn open_late(
    table: &Sessions<Eight>,
    caller: &mut Caller<Eight>,
    word: BucketWord,
    began: &AtomicBool,
)
    requires own { caller.old.seat.row ≡ table.now.row }
    requires locked { HoldsClean caller.old.seat.view 0 word }
{
    for _ in 0..100_000_000u64 {
        if began.load(Ordering::SeqCst) {
            break;
        }
    }
    for _ in 0..1_000_000u32 {
        let _ = began.load(Ordering::SeqCst);
    }
    table.row.release(&mut caller.seat, 0, word);
}

// How often each thread goes round in the test below.
const ROUNDS: u32 = 10_000;

// Three threads: the only page of a table goes from bucket to bucket while a third caller searches both.
#[test]
fn page_given_away_under_readers(rt: HostRuntime) -> Result<(), Fail> {
    let Some((table, first, second)) = two_callers::<OnePage>(rt.alloc()) else {
        return table_refused();
    };
    let Ok((second, third)) = table.split(rt.alloc(), second) else {
        return table_refused();
    };
    let (mut all, as_written) = write_and_read(&rt, &table, first, second, third);
    assert!(rt; as_written);
    // The page is not lost.
    let added = table_answer(&table, &mut all, Add(12), &[0, 0]);
    assert!(rt; added == Ok(Changed(None)));
    Ok(())
}

// For a test of three threads: two writers and a reader, joined after their rounds, and whether each met what is
// lawful.
fn write_and_read<R: Threads + Wait + Sync>(
    rt: &R,
    table: &Sessions<OnePage>,
    first: Caller<OnePage>,
    second: Caller<OnePage>,
    third: Caller<OnePage>,
) -> (Caller<OnePage>, bool)
    requires own { (first.seat.row ≡ table.now.row) × (second.seat.row ≡ table.now.row)
        × (third.seat.row ≡ table.now.row) }
    requires free { (first.seat.view.holds ≡ nothing_held) × (second.seat.view.holds ≡ nothing_held)
        × (third.seat.view.holds ≡ nothing_held) }
    ensures own { result.0.seat.row ≡ table.now.row }
    ensures free { result.0.seat.view.holds ≡ nothing_held }
{
    let (written, read) = join(
        rt,
        || -> (Caller<OnePage>, bool)
            requires { IsSync R.row × (first.seat.row ≡ table.now.row) × (first.seat.view.holds ≡ nothing_held)
                × (second.seat.row ≡ table.now.row) × (second.seat.view.holds ≡ nothing_held) }
            ensures { (result.0.seat.row ≡ table.entry.now.row) × (result.0.seat.view.holds ≡ nothing_held) }
        { write_in_turn(rt, table, first, second) },
        || -> (Caller<OnePage>, bool)
            requires { IsSync R.row × (third.seat.row ≡ table.now.row) × (third.seat.view.holds ≡ nothing_held) }
            ensures { (result.0.seat.row ≡ table.entry.now.row) × (result.0.seat.view.holds ≡ nothing_held) }
        { read_both(table, rt, third) },
    );
    (table.join(written.0, read.0), written.1 && read.1)
}

// For a test of three threads: two writers at once, one of the key 0, and one of the key 1.
fn write_in_turn<R: Threads + Wait + Sync>(
    rt: &R,
    table: &Sessions<OnePage>,
    first: Caller<OnePage>,
    second: Caller<OnePage>,
) -> (Caller<OnePage>, bool)
    requires own { (first.seat.row ≡ table.now.row) × (second.seat.row ≡ table.now.row) }
    requires free { (first.seat.view.holds ≡ nothing_held) × (second.seat.view.holds ≡ nothing_held) }
    ensures own { result.0.seat.row ≡ table.now.row }
    ensures free { result.0.seat.view.holds ≡ nothing_held }
{
    let (one, two) = join(
        rt,
        || -> (Caller<OnePage>, bool)
            requires { IsSync R.row × (first.seat.row ≡ table.now.row) × (first.seat.view.holds ≡ nothing_held) }
            ensures { (result.0.seat.row ≡ table.entry.now.row) × (result.0.seat.view.holds ≡ nothing_held) }
        { add_and_remove(table, rt, first, 0, 10) },
        || -> (Caller<OnePage>, bool)
            requires { IsSync R.row × (second.seat.row ≡ table.now.row) × (second.seat.view.holds ≡ nothing_held) }
            ensures { (result.0.seat.row ≡ table.entry.now.row) × (result.0.seat.view.holds ≡ nothing_held) }
        { add_and_remove(table, rt, second, 1, 11) },
    );
    (table.join(one.0, two.0), one.1 && two.1)
}

// For a test of three threads: the caller, and whether each round added the key's only pair, or found no page, and
// removed what it added.
fn add_and_remove<R: Wait>(
    table: &Sessions<OnePage>,
    rt: &R,
    mut caller: Caller<OnePage>,
    key: u64,
    value: u32,
) -> (Caller<OnePage>, bool)
    requires own { caller.seat.row ≡ table.now.row }
    requires free { caller.seat.view.holds ≡ nothing_held }
    ensures own { result.0.seat.row ≡ table.now.row }
    ensures free { result.0.seat.view.holds ≡ nothing_held }
{
    let value = u64::from(value);
    let mut as_written = true;
    'rounds: for _ in 0..ROUNDS {
        let added = table.add(rt, &mut caller, &[key, 0], value);
        let removed = table.remove(rt, &mut caller, &[key, 0]);
        as_written &= match added {
            Reply::Changed(None) => removed == Reply::Changed(Some(value)),
            Reply::NoPages { log2: 0, left: 0 } => removed == Reply::Kept(None),
            _ => false,
        };
    }
    (caller, as_written)
}

// For a test of three threads: the caller, and whether each search of a key found its one value or none.
fn read_both<R: Wait>(
    table: &Sessions<OnePage>,
    rt: &R,
    mut caller: Caller<OnePage>,
) -> (Caller<OnePage>, bool)
    requires own { caller.seat.row ≡ table.now.row }
    requires free { caller.seat.view.holds ≡ nothing_held }
    ensures own { result.0.seat.row ≡ table.now.row }
    ensures free { result.0.seat.view.holds ≡ nothing_held }
{
    let mut as_written = true;
    'rounds: for _ in 0..ROUNDS {
        let zero = table.search(rt, &mut caller, &[0, 0]);
        as_written &= matches!(zero, None | Some(10));
        let one = table.search(rt, &mut caller, &[1, 0]);
        as_written &= matches!(one, None | Some(11));
    }
    (caller, as_written)
}
