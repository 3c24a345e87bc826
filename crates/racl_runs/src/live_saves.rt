//! Packets that are saved while their capture comes.
ghost use Rattle.std.specs.Prelude.{◌≡◌, ◌-◌, ◌<◌, ◌^◌, ℕ, List, IfSome, OnOk};
ghost use Rattle.std.specs.List.{concat};
ghost use Rattle.packet_view.specs.Captures.{RecordFacts};
ghost use Rattle.racl_views.specs.ChosenRecords.{AreRecordsOf, chosen_among};
ghost use Rattle.racl_runs.specs.inner.Kept.{HasGot, HasWritten};

use capture_stream::Saver;
use packet_view::Order;
use racl_io::{Fault, Sink, write_all};
use racl_report::Saves;
use racl_views::{Chosen, write_chosen_records};
use session_state::Verdict;

/// The files where packets of a live run are saved.
#[derive(Drop)]
pub struct LiveSaves<S> {
    pub files: Saves<S>,
}

// Writes the header of a capture to a file, where there is one.
fn put_header<S: Sink>(file: &mut Option<S>, header: &[u8]) -> Result<(), Fault>
    requires { IfSome file.old (λ file. S.failures file < 2 ^ 64 - 1) }
    ensures got { OnOk result (HasGot S.bytes header.now file.old file.new) }
    ensures written { HasWritten S.failures file.old file.new result }
{
    match file {
        Some(sink) => write_all(sink, header),
        None => Ok(()),
    }
}

// Writes the chosen ones of whole records to a file, where there is one.
fn put_records<S: Sink>(
    file: &mut Option<S>,
    records: &[u8],
    order: Order,
    chosen: Chosen,
    verdicts: &[Verdict],
) -> Result<(), Fault>
    requires { IfSome file.old (λ file. S.failures file < 2 ^ 64 - 1) }
    ensures got { OnOk result ((pieces : List (List ℕ)) (packets : List RecordFacts) → AreRecordsOf order pieces packets → records.now ≡ concat pieces
        → HasGot S.bytes (concat (chosen_among chosen verdicts.now pieces)) file.old file.new) }
    ensures written { HasWritten S.failures file.old file.new result }
{
    match file {
        Some(sink) => write_chosen_records(sink, records, order, chosen, verdicts),
        None => Ok(()),
    }
}

impl<S: Sink> LiveSaves<S> {
    ghost use Rattle.std.specs.Prelude.{◌≡◌, ◌+◌, IfErr, OnErr, OnOk};
    ghost use Rattle.racl_io.specs.declared.fault.Fault.TheVariants.{Write};
    ghost use Rattle.racl_runs.specs.LiveSaves.{MayFail, failures_in};
    ghost use Rattle.racl_runs.specs.inner.Kept.{HaveGot};

    /// Each file gets the header of the capture whose packets are to be saved. A fault is Write.
    pub fn begin(&mut self, header: &[u8]) -> Result<(), Fault>
        requires { MayFail S.failures self.old.files }
        ensures got { OnOk result (HaveGot S.bytes header.now self.old.files self.new.files × MayFail S.failures self.new.files) }
        ensures failed { OnOk result (failures_in S.failures self.new.files ≡ failures_in S.failures self.old.files)
            × OnErr result (failures_in S.failures self.new.files ≡ failures_in S.failures self.old.files + 1) × IfErr result (λ fault. fault ≡ Write) }
    {
        put_header(&mut self.files.drops, header)?;
        put_header(&mut self.files.passes, header)
    }
}

impl<S: Sink> Saver for LiveSaves<S> {
    ghost use Rattle.racl_runs.specs.LiveSaves.{failures_in};
    ghost use Rattle.racl_runs.specs.inner.Kept.{HaveKept};

    ghost saved = { λ begun order records said saves. HaveKept S.bytes S.failures begun.files order records said saves.files };

    ghost failures = { λ saves. failures_in S.failures saves.files };

    // Each file gets those of these records whose packets it is to get.
    fn save(&mut self, order: Order, records: &[u8], verdicts: &[Verdict]) -> Result<(), Fault> {
        put_records(
            &mut self.files.drops,
            records,
            order,
            Chosen::Dropped,
            verdicts,
        )?;
        put_records(
            &mut self.files.passes,
            records,
            order,
            Chosen::Passing,
            verdicts,
        )
    }
}
