//! Sessions that ended, taken out of the tables bucket by bucket.
ghost use Rattle.bihash_words.specs.Sizes.{sizes_of};
ghost use Rattle.bihash_rule.specs.Callers.{IsLawfulCaller};
ghost use Rattle.bihash_steps.specs.CallerCalls.{IsIdle};
ghost use Rattle.session_state.specs.Sessions.{is_expired_at};
ghost use Rattle.flow_judge.specs.Ageing.{LooksAt, TellsAged};

use crate::judge::Judge;
use bihash_table::{Caller, Contended, Sessions};
use bihash_words::{Reply, Shape};
use packet_view::Family;
use session_state::SessionExpiry;

// One try of a look at a bucket. In a bucket that the table doesn't have no session is found.
fn look<S: Shape>(
    table: &Sessions<S>,
    caller: &mut Caller<S>,
    bucket: u64,
    expiry: &SessionExpiry,
) -> Result<Option<Reply>, Contended>
    requires idle { IsIdle table.now.row caller.old.seat }
    requires lawful { IsLawfulCaller (sizes_of S.Shape) caller.old.seat.view }
    ensures looked { LooksAt (sizes_of S.Shape) bucket (is_expired_at expiry.now.times expiry.now.moment) caller.old.seat caller.new.seat result }
    ensures idle { IsIdle table.now.row caller.new.seat }
    ensures lawful { IsLawfulCaller (sizes_of S.Shape) caller.new.seat.view }
{
    table.row.is_sound();
    if bucket >= 1u64 << S::LOG2_BUCKETS {
        return Ok(None);
    }
    table.try_expire(caller, bucket as usize, expiry)
}

impl<A: Shape, B: Shape> Judge<A, B> {
    /// Looks once at a bucket of this family's table, and removes one session there that has ended by this second, by the
    /// judge's timeouts. `None`: none had, or the table has no such bucket.
    pub fn expire(
        &mut self,
        family: Family,
        bucket: u64,
        moment: u32,
    ) -> Result<Option<Reply>, Contended>
        ensures { TellsAged ⟦<A as Shape>⟧ ⟦<B as Shape>⟧ family bucket moment self.old self.new result }
    {
        let expiry = SessionExpiry {
            moment,
            times: self.filter.times(),
        };
        let tables = self.tables.tables();
        match family {
            Family::V4 => look(&tables.four, &mut self.callers.four, bucket, &expiry),
            Family::V6 => look(&tables.six, &mut self.callers.six, bucket, &expiry),
        }
    }
}
