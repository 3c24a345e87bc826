//! An observer that tells packets in lines, which it writes.

use crate::batch::Batch;
use crate::numbered_lines::tell_numbered;
use crate::observer::Observer;
use racl_io::{Captured, Fault, Sink, Teller, Totals, without_pages};
use session_state::Verdict;
use std::alloc::Global;

/// What tells packets, where it writes, and the totals so far.
#[derive(Drop)]
pub struct ToldLines<'t, 'w, L, W> {
    pub teller: &'t mut L,
    pub writer: &'w mut W,
    pub alloc: Global,
    /// How many packets were told.
    pub packets: u64,
    /// How many of them pass.
    pub passed: u64,
    /// How many found no pages for their sessions.
    pub without_pages: u64,
}

impl<'t, 'w, L, W> ToldLines<'t, 'w, L, W> {
    ghost use Rattle.std.specs.Prelude.{◌≡◌, ◌-◌, ◌≤◌};
    ghost use Rattle.filter_run.specs.Lines.{IsFresh};

    /// No packet was told.
    pub fn new(alloc: Global, teller: &'t mut L, writer: &'w mut W) -> ToldLines<'t, 'w, L, W>
        ensures same { (result.teller.ghost_name ≡ teller.entry.ghost_name) × (result.writer.ghost_name ≡ writer.entry.ghost_name) }
        ensures teller { result.teller.now ≡ teller.old }
        ensures writer { result.writer.now ≡ writer.old }
        ensures fresh { IsFresh result }
    {
        ToldLines {
            teller,
            writer,
            alloc,
            packets: 0,
            passed: 0,
            without_pages: 0,
        }
    }

    /// The totals so far, of captures of which one ends within a record, or none does.
    pub fn totals(&self, truncated: bool) -> Totals
        requires { self.now.passed ≤ self.now.packets }
        ensures { result ≡ record { packets = self.now.packets; passed = self.now.passed; dropped = self.now.packets - self.now.passed; without_pages = self.now.without_pages; truncated = truncated } }
    {
        Totals {
            packets: self.packets,
            passed: self.passed,
            dropped: self.packets - self.passed,
            without_pages: self.without_pages,
            truncated,
        }
    }
}

impl<'t, 'w, L: Teller, W: Sink> ToldLines<'t, 'w, L, W> {
    ghost use Rattle.std.specs.Prelude.{◌≡◌, ◌+◌, ◌-◌, ◌<◌, ◌^◌, ◌++◌, IfOk, List, length};
    ghost use Rattle.session_state.specs.declared.verdict.Verdict.{Verdict};
    ghost use Rattle.racl_io.specs.Reports;
    ghost use Rattle.racl_io.specs.Tellings.{HasToldText};
    ghost use Rattle.filter_run.specs.Batches.{IsWhole, batch_facts, packets_in};
    ghost use Rattle.filter_run.specs.Lines.{AreSame, HasCounts, batch_text};

    // Tells the packets of a batch, and answers how many of them pass.
    fn tell(&mut self, batch: &Batch, said: &[Verdict]) -> Result<u64, Fault>
        requires sound { W.failures self.old.writer.now < 2 ^ 64 - 1 }
        requires whole { IsWhole batch.now }
        requires each { length said.now ≡ length (packets_in (batch_facts batch.now)) }
        ensures told { HasToldText W.bytes W.failures self.old.writer.now self.new.writer.now (batch_text (L.wording self.old.teller.now) (record { batch = batch_facts batch.now; said = said.now })) result }
        ensures passed { IfOk result (λ n. n ≡ Reports.passed said.now) }
        ensures words { L.wording self.new.teller.now ≡ L.wording self.old.teller.now }
        ensures same { (self.new.teller.ghost_name ≡ self.old.teller.ghost_name) × (self.new.writer.ghost_name ≡ self.old.writer.ghost_name) }
        ensures counts { (self.new.packets ≡ self.old.packets) × (self.new.passed ≡ self.old.passed) × (self.new.without_pages ≡ self.old.without_pages) }
    {
        let packets = batch.packets();
        match &batch.numbers {
            None => self.teller.tell(self.writer, batch.others, packets, said),
            Some(numbers) => {
                tell_numbered(self.alloc, self.teller, self.writer, numbers, packets, said)
            }
        }
    }

    /// Tells the packets of a batch, and counts them.
    pub fn tell_counted(&mut self, batch: &Batch, said: &[Verdict]) -> Result<(), Fault>
        requires sound { W.failures self.old.writer.now < 2 ^ 64 - 1 }
        requires whole { IsWhole batch.now }
        requires each { length said.now ≡ length (packets_in (batch_facts batch.now)) }
        requires fits { (before : List Verdict) × HasCounts self.old before × (length before + length said.now < 2 ^ 64) }
        ensures told { HasToldText W.bytes W.failures self.old.writer.now self.new.writer.now (batch_text (L.wording self.old.teller.now) (record { batch = batch_facts batch.now; said = said.now })) result }
        ensures counts { IfOk result (λ _. (before : List Verdict) → HasCounts self.old before → HasCounts self.new (before ++ said.now)) }
        ensures words { L.wording self.new.teller.now ≡ L.wording self.old.teller.now }
        ensures same { AreSame self.old self.new }
    {
        let passed = match self.tell(batch, said) {
            Ok(passed) => passed,
            Err(fault) => return Err(fault),
        };
        self.packets += said.len() as u64;
        self.passed += passed;
        self.without_pages += without_pages(said);
        Ok(())
    }

    /// Tells, behind its packets, whether this capture ended within a record.
    pub fn tell_cut(&mut self, captured: &Captured) -> Result<(), Fault>
        requires { W.failures self.old.writer.now < 2 ^ 64 - 1 }
        ensures told { HasToldText W.bytes W.failures self.old.writer.now self.new.writer.now ((L.wording self.old.teller.now).cut captured.now) result }
        ensures counts { (said : List Verdict) → HasCounts self.old said → HasCounts self.new said }
        ensures words { L.wording self.new.teller.now ≡ L.wording self.old.teller.now }
        ensures same { AreSame self.old self.new }
    {
        self.teller.tell_cut(self.writer, captured)
    }
}

impl<'t, 'w, L: Teller, W: Sink> Observer<Verdict> for ToldLines<'t, 'w, L, W> {
    ghost use Rattle.filter_run.specs.Lines.{HasCutLines, HasToldLines};

    ghost told = { λ begun batches now. HasToldLines L.wording W.bytes W.failures begun batches now };

    ghost cut = { λ begun batches fault now. HasCutLines L.wording W.bytes W.failures begun batches fault now };

    fn packets(&mut self, batch: &Batch, said: &[Verdict]) -> Result<(), Fault> {
        self.tell_counted(batch, said)
    }
}
