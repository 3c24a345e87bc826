//! A judge of packets.
ghost use Rattle.acl_policy.specs.Policies.{policy_facts};
ghost use Rattle.flow_workers.specs.Calls.{MayAsk};
ghost use Rattle.std.specs.Arc.{arc_value};
ghost use Rattle.flow_judge.specs.JudgeStates.{JudgeState};
ghost use Rattle.flow_judge.specs.TablesShares.{is_shared, tables_of};

use crate::counts::Counts;
use crate::tables_share::TablesShare;
use bihash_words::Shape;
use flow_filter::PreparedFilter;
use flow_workers::Callers;
use std::alloc::Global;
use std::marker::Model;
use std::sync::Arc;

/// Rules and timeouts, session tables, and callers of both that are the judge's own. No call of it is under way.
/// Contracts see what it judges by, its callers, how many packets it gave each kind of verdict, and whether another judge may
/// have a share of its tables.
#[derive(Drop)]
pub struct Judge<A: Shape, B: Shape> {
    pub(crate) filter: Arc<PreparedFilter, Global>,
    pub(crate) tables: TablesShare<A, B>,
    pub(crate) callers: Callers<A, B>,
    pub(crate) counts: Counts,
}

impl<A: Shape, B: Shape> Model for Judge<A, B> {
    ghost Value = { JudgeState };

    ghost view = { λ j. record {
      policy = policy_facts (arc_value j.filter).policy;
      times = (arc_value j.filter).times;
      four = j.callers.four.seat;
      six = j.callers.six.seat;
      counts = j.counts;
      shared = is_shared j.tables;
    } };

    ghost invariant = { λ j. MayAsk (tables_of j.tables) j.callers };
}
