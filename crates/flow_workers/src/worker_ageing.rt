//! A worker between two of its packets: sessions that have ended are removed from buckets of its own.
ghost use Rattle.std.specs.Prelude.{◌≡◌, ◌<◌, ◌^◌, true, IfSome};
ghost use Rattle.bihash_words.specs.Sizes.{IsSound, sizes_of};
ghost use Rattle.bihash_rule.specs.Callers.{IsLawfulCaller};
ghost use Rattle.bihash_steps.specs.CallerCalls.{IsIdle};
ghost use Rattle.session_state.specs.Sessions.{is_expired_at};
ghost use Rattle.flow_workers.specs.inner.Ageing.{HasAgedOn, HasTicked, IsOwn, MayAge};
ghost use Rattle.flow_workers.specs.inner.AgeingTimes.{count_of_own, due_after};
ghost use Rattle.flow_workers.specs.inner.Jobs.{HasWorkedOn};

use crate::ageing_clock::{are_short, due_buckets, part_seconds, round_seconds};
use crate::gate::Gate;
use crate::worker_share::{Batch, Share};
use bihash_table::{Caller, Sessions};
use bihash_words::Shape;
use session_state::{SessionExpiry, Timeouts};
use std::sync::Wait;

// How many seconds after its end a session is removed, so that a packet which is late by less finds it.
const REMOVAL_DELAY: u32 = 60;

// Buckets that fall to a worker of so many: from one on, so many.
#[derive(Clone, Copy)]
struct OwnBuckets {
    worker: usize,
    workers: usize,
    from: usize,
    count: u64,
}

// The worker's bucket among these as many as there are workers, or its first where no more are left.
fn own_bucket<S: Shape>(own: &OwnBuckets, at: usize) -> Option<usize>
    requires sound { IsSound (sizes_of S.Shape) }
    requires few { own.now.worker < own.now.workers }
    ensures inside { IfSome result (λ bucket. bucket < 2 ^ S.LOG2_BUCKETS) }
    ensures own { IfSome result (IsOwn own.now.workers own.now.worker) }
{
    let buckets = 1usize << S::LOG2_BUCKETS;
    let first = at - at % own.workers;
    if first < buckets && own.worker < buckets - first {
        return Some(first + own.worker);
    }
    if own.worker < buckets {
        return Some(own.worker);
    }
    None
}

// Removes what is expired in these buckets, of each until it has nothing more or its version is used up, and says which bucket
// comes next.
fn age_table<S: Shape, R: Wait>(
    rt: &R,
    table: &Sessions<S>,
    caller: &mut Caller<S>,
    own: OwnBuckets,
    expiry: &SessionExpiry,
) -> usize
    requires sound { IsSound (sizes_of S.Shape) }
    requires few { own.worker < own.workers }
    requires idle { IsIdle table.now.row caller.old.seat }
    requires lawful { IsLawfulCaller (sizes_of S.Shape) caller.old.seat.view }
    ensures { HasAgedOn (sizes_of S.Shape) own.workers own.worker (is_expired_at expiry.now.times expiry.now.moment)
        caller.old.seat caller.new.seat own.from result }
{
    let mut at = own.from;
    for _ in 0..own.count {
        let Some(bucket) = own_bucket::<S>(&own, at) else {
            return at;
        };
        table.sweep(rt, caller, bucket, bucket + 1, expiry);
        at = bucket.saturating_add(own.workers);
    }
    at
}

// Whether pages of this table are short.
fn is_short<S: Shape>(table: &Sessions<S>) -> bool {
    are_short(table.unused_pages(), S::PAGES)
}

// At how many of a worker's own buckets of a table it looks, so many seconds after the last ageing.
fn due_of<S: Shape>(
    worker: usize,
    workers: usize,
    elapsed: u64,
    times: &Timeouts,
    short_of_pages: bool,
) -> u64
    requires sound { IsSound (sizes_of S.Shape) }
    requires few { worker < workers }
    ensures { result ≡ due_after times.now short_of_pages (count_of_own (2 ^ S.LOG2_BUCKETS) worker workers) elapsed }
{
    let buckets = 1usize << S::LOG2_BUCKETS;
    let own = buckets.saturating_sub(worker).div_ceil(workers);
    due_buckets(own as u64, elapsed, times, short_of_pages)
}

// Removes sessions that have ended from buckets that fall to the worker, before it judges the packet at this place of the batch,
// which has this moment. Most packets find nothing due, and their path is shorter without this.
#[cold]
#[inline(never)]
fn age<A: Shape, B: Shape, R: Wait, G: Gate>(
    batch: &Batch<'_, '_, '_, A, B, R, G>,
    worker: usize,
    _at: usize,
    moment: u32,
    share: &mut Share<A, B>,
)
    requires { MayAge ⟦<A as Shape>⟧ ⟦<B as Shape>⟧ batch.now worker _at moment share.old }
    ensures worked { HasWorkedOn ⟦<A as Shape>⟧ ⟦<B as Shape>⟧ batch.now worker _at _at share.old share.new }
    ensures ticked { batch.now.setup.ages ≡ true → HasTicked batch.now.setup.filter.now.times moment share.new.clock }
{
    let setup = &batch.setup;
    if !setup.ages {
        return;
    }
    let expiry = SessionExpiry {
        moment: moment.saturating_sub(REMOVAL_DELAY),
        times: setup.filter.times,
    };
    let elapsed = u64::from(moment).saturating_sub(share.clock.last);
    let workers = setup.workers;
    let tables = setup.tables;
    let short_four = is_short(&tables.four);
    let short_six = is_short(&tables.six);
    let four = OwnBuckets {
        worker,
        workers,
        from: share.clock.four,
        count: due_of::<A>(worker, workers, elapsed, &expiry.times, short_four),
    };
    let six = OwnBuckets {
        worker,
        workers,
        from: share.clock.six,
        count: due_of::<B>(worker, workers, elapsed, &expiry.times, short_six),
    };
    let callers = &mut share.callers;
    share.clock.four = age_table(setup.rt, &tables.four, &mut callers.four, four, &expiry);
    share.clock.six = age_table(setup.rt, &tables.six, &mut callers.six, six, &expiry);
    share.clock.last = u64::from(moment);
    let round_four = round_seconds(&expiry.times, short_four);
    let round_six = round_seconds(&expiry.times, short_six);
    share.clock.due = u64::from(moment).saturating_add(part_seconds(round_four.min(round_six)));
}

/// Removes sessions that have ended, where that is due, before the worker judges the packet at this place of the batch, which
/// has this moment.
#[inline(always)]
pub fn age_where_due<A: Shape, B: Shape, R: Wait, G: Gate>(
    batch: &Batch<'_, '_, '_, A, B, R, G>,
    worker: usize,
    at: usize,
    moment: u32,
    share: &mut Share<A, B>,
)
    requires { MayAge ⟦<A as Shape>⟧ ⟦<B as Shape>⟧ batch.now worker at moment share.old }
    ensures { HasWorkedOn ⟦<A as Shape>⟧ ⟦<B as Shape>⟧ batch.now worker at at share.old share.new }
{
    if u64::from(moment) >= share.clock.due {
        age(batch, worker, at, moment, share);
    }
}
