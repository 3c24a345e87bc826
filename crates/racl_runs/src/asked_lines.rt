//! What tells the packets of a run in the form that is asked for.
ghost use Rattle.std.specs.Prelude.{IfOk};
ghost use Rattle.acl_policy.specs.Policies.{IsPolicyText, policy_facts};
ghost use Rattle.racl_runs.specs.LiveRuns.{TellsBy};
ghost use Rattle.racl_runs.specs.inner.AskedWordings.{asked_wording};

use crate::live_run::LiveWay;
use packet_view::Packets;
use racl_io::{Captured, Fault, ReportLines, Sink, Teller, Totals};
use racl_options::Lines;
use racl_views::{ExplainedLines, ObjectLines};
use session_state::Verdict;
use std::alloc::{AllocError, Global};

/// Lines of one of the forms.
#[derive(Drop)]
pub enum AskedLines<'t> {
    Plain(ReportLines),
    Explained(ExplainedLines<'t>),
    Objects(ObjectLines<'t>),
}

impl<'t> AskedLines<'t> {
    /// Lines in the form that is asked for. With `names` each line names its packet's interface; an object does so always.
    pub fn new(
        alloc: Global,
        way: LiveWay<'t, '_>,
        names: bool,
    ) -> Result<AskedLines<'t>, AllocError>
        requires { IsPolicyText way.text.now (policy_facts way.filter.now.policy.now) }
        ensures { IfOk result (λ lines. TellsBy names way.entry.options.now way.entry.text.now (policy_facts way.entry.filter.now.policy.now) (asked_wording lines)) }
    {
        let (shown, policy) = (way.options.shown, way.filter.policy);
        match way.options.lines {
            Lines::Plain => {
                let plain = ReportLines::new(alloc, shown, names)?;
                Ok(AskedLines::Plain(plain))
            }
            Lines::Explained => {
                let explained = ExplainedLines::new(alloc, shown, names, policy, way.text)?;
                Ok(AskedLines::Explained(explained))
            }
            Lines::Json => {
                let objects = ObjectLines::new(alloc, shown, policy, way.text)?;
                Ok(AskedLines::Objects(objects))
            }
        }
    }
}

impl<'t> Teller for AskedLines<'t> {
    ghost wording = { λ lines. asked_wording lines };

    fn tell<W: Sink>(
        &mut self,
        writer: &mut W,
        others: usize,
        packets: Packets<'_>,
        verdicts: &[Verdict],
    ) -> Result<u64, Fault> {
        match self {
            AskedLines::Plain(lines) => lines.tell(writer, others, packets, verdicts),
            AskedLines::Explained(lines) => lines.tell(writer, others, packets, verdicts),
            AskedLines::Objects(lines) => lines.tell(writer, others, packets, verdicts),
        }
    }

    fn tell_cut<W: Sink>(&mut self, writer: &mut W, captured: &Captured) -> Result<(), Fault> {
        match self {
            AskedLines::Plain(lines) => lines.tell_cut(writer, captured),
            AskedLines::Explained(lines) => lines.tell_cut(writer, captured),
            AskedLines::Objects(lines) => lines.tell_cut(writer, captured),
        }
    }

    fn tell_end<W: Sink>(
        &mut self,
        writer: &mut W,
        captures: &[Captured],
        totals: &Totals,
    ) -> Result<(), Fault> {
        match self {
            AskedLines::Plain(lines) => lines.tell_end(writer, captures, totals),
            AskedLines::Explained(lines) => lines.tell_end(writer, captures, totals),
            AskedLines::Objects(lines) => lines.tell_end(writer, captures, totals),
        }
    }
}
