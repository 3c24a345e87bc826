//! What gives the bytes of several captures as they come.
ghost use Rattle.std.specs.Prelude.{◌≡◌, ◌-◌, ◌<◌, ◌^◌, ℕ, List, Option, IfErr, IfOk, MatchResult};
ghost use Rattle.racl_io.specs.declared.fault.Fault.TheVariants.{Read};
ghost use Rattle.capture_stream.specs.Arrivals.{AreWhole, HasGiven, HaveEnded, IsNotGiven, Part};
ghost use Rattle.capture_stream.specs.Lives.{with_read};

use racl_io::Fault;

/// Some bytes of one of several captures, or none at its end.
#[derive(Drop)]
pub struct Arrival {
    /// The number of the interface where the capture's packets were seen.
    pub interface: u8,
    pub bytes: Vec<u8>,
}

/// A fault, and the interface whose part had come, or whose capture couldn't be read; None where there is none.
#[derive(Clone, Copy, Debug, PartialEq, Eq)]
pub struct FaultAt {
    pub fault: Fault,
    pub interface: Option<u8>,
}

/// What gives the bytes of several captures, each taken at another interface, in parts as they come, and each one's end.
pub trait Arrivals {
    /// The parts that are still to come, where they are known.
    ghost parts: { Self → Option (List Part) };

    /// Each capture of which a part is still to come does so to its end, and no further.
    ghost whole: { (captures : Self) → AreWhole (parts captures) };

    /// How many captures haven't ended, where that is known.
    ghost left: { Self → Option ℕ };

    /// How often it failed.
    ghost failures: { Self → ℕ };

    /// The interface whose capture last couldn't be read, where one couldn't be.
    ghost unread: { Self → Option ℕ };

    /// Waits for the next part, of at most 64 KiB; None where all captures have ended. A fault is Memory, or Read of the capture that it names.
    fn next(&mut self) -> Result<Option<Arrival>, FaultAt>
        requires { failures self.old < 2 ^ 64 - 1 }
        ensures parts { MatchResult result (HasGiven (parts self.old) (parts self.new)) (IsNotGiven (parts self.old) (parts self.new)) }
        ensures failures { MatchResult result (λ _. failures self.new ≡ failures self.old) (λ found. failures self.new ≡ with_read (failures self.old) found.fault) }
        ensures left { IfOk result (HaveEnded (left self.old) (left self.new)) }
        ensures whose { IfErr result (λ found. found.fault ≡ Read → found.interface ≡ unread self.new) };
}
