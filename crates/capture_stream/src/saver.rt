//! Who saves packets.
ghost use Rattle.std.specs.Prelude.{◌≡◌, ◌+◌, ℕ, List, IfErr, OnErr, OnOk};
ghost use Rattle.packet_view.specs.declared.capture.Order.{Order};
ghost use Rattle.session_state.specs.declared.verdict.Verdict.{Verdict};
ghost use Rattle.racl_io.specs.declared.fault.Fault.TheVariants.{Write};
ghost use Rattle.capture_stream.specs.Savings.{MaySave, SavesMore};

use packet_view::Order;
use racl_io::Fault;
use session_state::Verdict;

/// What saves packets of a capture one part after the other, by their verdicts.
pub trait Saver {
    /// Whether the first, after the whole records in these bytes, whose numbers have this order and of whose packets this was
    /// said, and both are all so far, is the second.
    ghost saved: { Self → Order → List ℕ → List Verdict → Self → Type 0 };

    /// How often it failed.
    ghost failures: { Self → ℕ };

    /// Saves those of these whole records, which follow the ones so far, that it is to save by their packets' verdicts. A fault
    /// is Write.
    fn save(&mut self, order: Order, records: &[u8], verdicts: &[Verdict]) -> Result<(), Fault>
        requires { MaySave saved self.old order records.now verdicts.now }
        ensures saved { OnOk result (SavesMore saved self.old order records.now verdicts.now self.new) }
        ensures fault { IfErr result (λ fault. fault ≡ Write) }
        ensures steady { OnOk result (failures self.new ≡ failures self.old) }
        ensures failed { OnErr result (failures self.new ≡ failures self.old + 1) };
}

/// What saves no packet.
#[derive(Clone, Copy, Debug, PartialEq, Eq)]
pub struct Unsaved;

impl Saver for Unsaved {
    ghost use Rattle.std.specs.Prelude.{⊤};

    ghost saved = { λ begun order records verdicts now. ⊤ };

    ghost failures = { λ unsaved. 0 };

    fn save(&mut self, _order: Order, _records: &[u8], _verdicts: &[Verdict]) -> Result<(), Fault> {
        Ok(())
    }
}
