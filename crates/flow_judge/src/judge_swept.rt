//! Sessions that ended, taken out of buckets that follow one another, and how many pages are unused.
ghost use Rattle.std.specs.Prelude.{◌≡◌, ◌<◌, ◌≤◌, ◌^◌, ◌-◌};
ghost use Rattle.bihash_words.specs.Sizes.{sizes_of};
ghost use Rattle.bihash_rule.specs.Words.{buckets};
ghost use Rattle.bihash_table.specs.Ageing.{is_removal};
ghost use Rattle.flow_filter.specs.OneThread.{layout_of, sizes_in};
ghost use Rattle.flow_judge.specs.Sweeps.{TellsSwept, bucket_after, went_after};

use crate::judge::Judge;
use bihash_table::{Contended, Sessions};
use bihash_words::{Reply, Shape};
use packet_view::Family;

/// How far a sweep came.
#[derive(Clone, Copy, Debug, PartialEq, Eq)]
pub struct Swept {
    /// The bucket at which the next look would be.
    pub next: u64,
    /// How many sessions went.
    pub went: u64,
    /// Whether another judge stood in the way there.
    pub met: bool,
}

// How many buckets a table has.
fn bucket_count<S: Shape>(table: &Sessions<S>) -> u64
    ensures { result ≡ buckets (sizes_of S.Shape) }
{
    table.row.is_sound();
    1u64 << S::LOG2_BUCKETS
}

// Whether a look that came to this took a session out.
fn is_gone(found: Option<Reply>) -> bool
    ensures { result ≡ is_removal found }
{
    matches!(found, Some(Reply::Changed(_)))
}

// The bucket of the next look behind one that came to this, and how many sessions went then.
fn past(bucket: u64, went: u64, found: Option<Reply>) -> (u64, u64)
    requires bucket { bucket < 2 ^ 64 - 1 }
    requires went { went < 2 ^ 64 - 1 }
    ensures { result ≡ (bucket_after found bucket, went_after found went) }
{
    if is_gone(found) {
        (bucket, went + 1)
    } else {
        (bucket + 1, went)
    }
}

impl<A: Shape, B: Shape> Judge<A, B> {
    // How many buckets this family's table has.
    fn bucket_count(&self, family: Family) -> u64
        ensures { result ≡ buckets (sizes_in (layout_of ⟦<A as Shape>⟧ ⟦<B as Shape>⟧) family) }
    {
        let tables = self.tables.tables();
        match family {
            Family::V4 => bucket_count(&tables.four),
            Family::V6 => bucket_count(&tables.six),
        }
    }

    /// Removes sessions that have ended by this second, by the judge's timeouts, from the buckets of this family's table from
    /// one to before another, of each until it has none or takes no more changes. It ends where another judge stands in the
    /// way of a look, and behind `most` looks.
    pub fn sweep(&mut self, family: Family, from: u64, to: u64, moment: u32, most: u64) -> Swept
        ensures { TellsSwept ⟦<A as Shape>⟧ ⟦<B as Shape>⟧ family moment from to most self.old self.new result }
    {
        let end = to.min(self.bucket_count(family));
        let mut next = from;
        let mut went = 0;
        let mut looks = 0;
        'looks: while looks < most && next < end {
            let found = match self.expire(family, next, moment) {
                Ok(found) => found,
                Err(Contended) => {
                    return Swept {
                        next,
                        went,
                        met: true,
                    };
                }
            };
            (next, went) = past(next, went, found);
            looks += 1;
        }
        Swept {
            next,
            went,
            met: false,
        }
    }

    /// How many pages of this family's table were never handed out, as it stood at some time during the call: a bound at best,
    /// since other judges hand pages out meanwhile. Pages that came back don't count.
    pub fn unused_pages(&self, family: Family) -> u64
        ensures { result ≤ (sizes_in (layout_of ⟦<A as Shape>⟧ ⟦<B as Shape>⟧) family).pages }
    {
        let tables = self.tables.tables();
        match family {
            Family::V4 => tables.four.unused_pages(),
            Family::V6 => tables.six.unused_pages(),
        }
    }
}
