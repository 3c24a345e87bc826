//! An observer that tells captures in turn in lines, each with its end, which it writes.

use crate::batch::Batch;
use crate::observer::Observer;
use crate::told_lines::ToldLines;
use racl_io::{Captured, Fault, Sink, Teller};
use session_state::Verdict;

/// What tells packets, each batch of which is a whole capture, and what is told of these captures.
#[derive(Drop)]
pub struct LinesInTurn<'t, 'w, 'c, L, W> {
    pub lines: ToldLines<'t, 'w, L, W>,
    pub told: &'c [Captured],
    /// Of how many of them the end was told.
    pub given: usize,
}

impl<'t, 'w, 'c, L: Teller, W: Sink> LinesInTurn<'t, 'w, 'c, L, W> {
    ghost use Rattle.std.specs.Prelude.{◌≡◌, ◌+◌, ◌-◌, ◌<◌, ◌≤◌, ◌^◌, IfOk, List, drop, length, min};
    ghost use Rattle.session_state.specs.declared.verdict.Verdict.{Verdict};
    ghost use Rattle.racl_io.specs.Tellings.{HasToldText};
    ghost use Rattle.filter_run.specs.Lines.{AreSame, HasCounts};
    ghost use Rattle.filter_run.specs.LinesInTurn.{first_end};

    // Tells, behind its packets, the end of the next capture, where there is one.
    fn tell_next_end(&mut self) -> Result<(), Fault>
        requires sound { W.failures self.old.lines.writer.now < 2 ^ 64 - 1 }
        requires within { self.old.given ≤ length self.old.told.now }
        ensures told { HasToldText W.bytes W.failures self.old.lines.writer.now self.new.lines.writer.now (first_end (L.wording self.old.lines.teller.now) (drop self.old.given self.old.told.now)) result }
        ensures given { IfOk result (λ _. self.new.given ≡ min (self.old.given + 1) (length self.old.told.now)) }
        ensures counts { (said : List Verdict) → HasCounts self.old.lines said → HasCounts self.new.lines said }
        ensures words { L.wording self.new.lines.teller.now ≡ L.wording self.old.lines.teller.now }
        ensures same { AreSame self.old.lines self.new.lines }
        ensures captures { self.new.told ≡ self.old.told }
    {
        if self.given >= self.told.len() {
            return Ok(());
        }
        let captured = self.told[self.given];
        match self.lines.tell_cut(&captured) {
            Ok(()) => {}
            Err(fault) => return Err(fault),
        }
        self.given += 1;
        Ok(())
    }
}

impl<'t, 'w, 'c, L: Teller, W: Sink> Observer<Verdict> for LinesInTurn<'t, 'w, 'c, L, W> {
    ghost use Rattle.filter_run.specs.LinesInTurn.{HasCutLinesInTurn, HasToldLinesInTurn};

    ghost told = { λ begun batches now. HasToldLinesInTurn L.wording W.bytes W.failures begun batches now };

    ghost cut = { λ begun batches fault now. HasCutLinesInTurn begun fault now };

    fn packets(&mut self, batch: &Batch, said: &[Verdict]) -> Result<(), Fault> {
        match self.lines.tell_counted(batch, said) {
            Ok(()) => self.tell_next_end(),
            Err(fault) => Err(fault),
        }
    }
}
