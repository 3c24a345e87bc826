//! An observer that tells of which packets two policies say different things.

use crate::change_lines::{PolicyPair, write_changes};
use crate::change_totals::{ChangeTotals, count_changes};
use crate::changed_packets::changed_packets;
use filter_run::{Batch, Observer};
use racl_io::{Fault, Piece, Sink};
use session_state::Verdict;
use std::alloc::Global;

/// What tells packets on which two policies say different things, where it writes, and the totals so far.
#[derive(Drop)]
pub struct ChangeLines<'p, 'w, W> {
    pub alloc: Global,
    pub policies: PolicyPair<'p>,
    pub writer: &'w mut W,
    /// Where lines are put together.
    pub piece: Piece,
    /// Over the packets that were compared.
    pub totals: ChangeTotals,
}

impl<'p, 'w, W> ChangeLines<'p, 'w, W> {
    ghost use Rattle.std.specs.Prelude.{◌≡◌};

    /// Where it wrote.
    pub fn into_writer(self) -> &'w mut W
        ensures same { result.ghost_name ≡ self.entry.writer.ghost_name }
        ensures behind { result.now ≡ self.entry.writer.now }
    {
        let ChangeLines { writer, .. } = self;
        writer
    }
}

impl<'p, 'w, W: Sink> Observer<(Verdict, Verdict)> for ChangeLines<'p, 'w, W> {
    ghost use Rattle.compared_verdicts.specs.inner.ChangesTold.{HasCutChanges, HasToldChanges};

    ghost told = { λ begun judged now. HasToldChanges W.bytes W.failures begun judged now };

    ghost cut = { λ begun judged fault now. HasCutChanges W.bytes W.failures begun judged fault now };

    fn packets(&mut self, batch: &Batch, said: &[(Verdict, Verdict)]) -> Result<(), Fault> {
        let first = batch.others as u64 + 1;
        let changes = match changed_packets(
            self.alloc,
            self.policies,
            first,
            said,
            batch.packets(),
        ) {
            Ok(changes) => changes,
            Err(_) => return Err(Fault::Memory),
        };
        let after = self.policies.after;
        match write_changes(self.writer, &mut self.piece, after, &changes) {
            Ok(()) => {}
            Err(fault) => return Err(fault),
        }
        count_changes(&mut self.totals, &changes);
        self.totals.packets += said.len() as u64;
        Ok(())
    }
}
