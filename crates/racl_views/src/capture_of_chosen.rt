//! The packets of a capture that are chosen by their verdicts, as a capture.
ghost use Rattle.std.specs.Prelude.{◌≡◌, ◌+◌, ◌-◌, ◌<◌, ◌^◌, ◌++◌, ℕ, List, IfErr, IfNone, IfSome, OnErr, OnOk};
ghost use Rattle.packet_view.specs.Captures.{IsCapture, IsCaptureAt, RecordFacts, Whole, packets_at};
ghost use Rattle.session_state.specs.declared.verdict.Verdict.{Verdict};
ghost use Rattle.racl_io.specs.declared.fault.Fault.TheVariants.{Write};
ghost use Rattle.racl_io.specs.Sinks.{HasPut};
ghost use Rattle.std.specs.List.{concat};
ghost use Rattle.racl_views.specs.ChosenRecords.{AreRecordsOf, IsChosen, IsRecordOf, chosen_among};
ghost use Rattle.racl_views.specs.declared.chosen_packets.Chosen.{Chosen};
ghost use Rattle.racl_views.specs.inner.Batches.{HasPassed};
ghost use Rattle.racl_views.specs.inner.ChosenBytes.{HasNoRecord, chosen_in};

use crate::byte_batch::{ByteBatch, put_where};
use crate::chosen_packets::Chosen;
use packet_view::{NextRecord, Order, next_record};
use racl_io::{Fault, Sink, write_all};
use session_state::Verdict;

// The bytes of a capture's record at the front, which are written where its packet is chosen, and those behind it; None
// where no whole one is there.
fn record_to_choose(bytes: &[u8], order: Order) -> Option<(&[u8], &[u8])>
    ensures some { IfSome result (λ parts. (facts : RecordFacts) × IsRecordOf order parts.0.now facts × (bytes.now ≡ parts.0.now ++ parts.1.now)) }
    ensures none { IfNone result (HasNoRecord order bytes.now) }
{
    match next_record(bytes, order) {
        NextRecord::Whole { frame, .. } => Some(bytes.split_at(16 + frame.len())),
        NextRecord::End | NextRecord::Truncated | NextRecord::TooLong => None,
    }
}

// Puts those whole records of a capture that are chosen by their verdicts behind the bytes that wait.
fn put_chosen<W: Sink>(
    writer: &mut W,
    batch: &mut ByteBatch,
    records: &[u8],
    order: Order,
    chosen: Chosen,
    verdicts: &[Verdict],
) -> Result<(), Fault>
    requires sound { W.failures writer.old < 2 ^ 64 - 1 }
    ensures { HasPassed W.bytes W.failures writer.old writer.new batch.old batch.new (chosen_in chosen order verdicts.now records.now) result }
{
    let mut left = records;
    'verdicts: for verdict in verdicts {
        let Some((record, rest)) = record_to_choose(left, order) else {
            return Ok(());
        };
        put_where(writer, batch, chosen.takes(*verdict), record)?;
        left = rest;
    }
    Ok(())
}

/// Writes the chosen ones of a capture's whole records, as they are, by the verdicts on their packets.
pub fn write_chosen_records<W: Sink>(
    writer: &mut W,
    records: &[u8],
    order: Order,
    chosen: Chosen,
    verdicts: &[Verdict],
) -> Result<(), Fault>
    requires { W.failures writer.old < 2 ^ 64 - 1 }
    ensures written { (pieces : List (List ℕ)) (packets : List RecordFacts) → AreRecordsOf order pieces packets → records.now ≡ concat pieces
        → HasPut W.bytes W.failures writer.old writer.new (concat (chosen_among chosen verdicts.now pieces)) result }
    ensures fault { IfErr result (λ fault. fault ≡ Write) }
    ensures steady { OnOk result (W.failures writer.new ≡ W.failures writer.old) }
    ensures failed { OnErr result (W.failures writer.new ≡ W.failures writer.old + 1) }
{
    let mut batch = ByteBatch::new();
    put_chosen(writer, &mut batch, records, order, chosen, verdicts)?;
    write_all(writer, batch.as_slice())
}

/// What is written of a capture is a capture of the chosen packets, in their order and whole.
pub fn chosen_packets_are_a_capture()
    ensures capture { (chosen : Chosen) (verdicts : List Verdict) (capture : List ℕ) (records : List RecordFacts) (written : List ℕ)
        → IsChosen chosen verdicts capture records written → IsCapture written (chosen_among chosen verdicts records) Whole }
    ensures packets { (chosen : Chosen) (verdicts : List Verdict) (capture : List ℕ) (records : List RecordFacts) (written : List ℕ) (number : ℕ)
        → IsChosen chosen verdicts capture records written → IsCaptureAt number written (chosen_among chosen verdicts (packets_at number records)) Whole }
{}
