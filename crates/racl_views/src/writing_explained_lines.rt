//! Packets that are told in explained lines, one part after the other.
ghost use Rattle.std.specs.Prelude.{◌≡◌, IfOk, map};
ghost use Rattle.acl_policy.specs.Policies.{policy_facts};
ghost use Rattle.racl_views.specs.RuleTexts.{shown_of};
ghost use Rattle.racl_views.specs.inner.PartWordings.{explained_wording};
ghost use Rattle.racl_views.specs.inner.Tellings.{IsTableOf};

use crate::explained_packet_line::ExplainedLine;
use crate::rule_lines_by_place::rule_table_by_place;
use crate::rule_table::RuleTable;
use crate::run_and_verdicts::Telling;
use acl_policy::Policy;
use packet_view::Packets;
use racl_io::{
    Captured, Fault, Piece, Sink, Teller, Totals, passed, write_ends, write_packet_lines,
    write_truncation,
};
use session_state::{Shown, Verdict};
use std::alloc::{AllocError, Global};

/// What tells packets in explained lines, and of these those that are shown.
#[derive(Drop)]
pub struct ExplainedLines<'a> {
    pub shown: Shown,
    pub policy: &'a Policy,
    pub table: RuleTable<'a>,
    /// Whether each line names its packet's interface.
    pub names: bool,
    pub piece: Piece,
}

impl<'a> ExplainedLines<'a> {
    /// Those under this policy, which the text says.
    pub fn new(
        alloc: Global,
        shown: Shown,
        names: bool,
        policy: &'a Policy,
        text: &'a [u8],
    ) -> Result<ExplainedLines<'a>, AllocError>
        ensures { IfOk result (λ lines. (lines.shown ≡ shown) × (lines.policy.now ≡ policy.now) × IsTableOf text.now lines.table × (lines.names ≡ names)) }
    {
        let table = rule_table_by_place(alloc, text)?;
        let piece = Piece::new(alloc)?;
        Ok(ExplainedLines {
            shown,
            policy,
            table,
            names,
            piece,
        })
    }
}

impl<'a> Teller for ExplainedLines<'a> {
    ghost wording = { λ lines. explained_wording lines.shown lines.names (policy_facts lines.policy.now) lines.table.rules.items (map shown_of lines.table.texts.items) };

    fn tell<W: Sink>(
        &mut self,
        writer: &mut W,
        others: usize,
        packets: Packets<'_>,
        verdicts: &[Verdict],
    ) -> Result<u64, Fault> {
        let telling = Telling {
            shown: self.shown,
            policy: self.policy,
            table: &self.table,
        };
        let line = ExplainedLine {
            telling,
            names: self.names,
        };
        let first = others as u64 + 1;
        let mut packets = packets;
        match write_packet_lines(
            writer,
            &mut self.piece,
            &line,
            first,
            &mut packets,
            verdicts,
        ) {
            Ok(()) => Ok(passed(verdicts)),
            Err(fault) => Err(fault),
        }
    }

    fn tell_cut<W: Sink>(&mut self, writer: &mut W, captured: &Captured) -> Result<(), Fault> {
        write_truncation(writer, &mut self.piece, captured)
    }

    fn tell_end<W: Sink>(
        &mut self,
        writer: &mut W,
        captures: &[Captured],
        totals: &Totals,
    ) -> Result<(), Fault> {
        write_ends(writer, &mut self.piece, captures, totals)
    }
}
