//! How long sessions outlive their last packet.
ghost use Rattle.std.specs.Prelude.{◌≡◌, ◌≤◌};

/// Timeouts in seconds, each at least 1.
#[derive(Clone, Copy, Debug, PartialEq, Eq)]
pub struct Timeouts {
    /// Of a TCP session on whose both sides exactly SYN and ACK were seen.
    pub established: u32,
    /// Of every other TCP session.
    pub transient: u32,
    /// Of a session that is not TCP.
    pub udp: u32,
    pub ghost positive: { (1 ≤ established) × (1 ≤ transient) × (1 ≤ udp) },
}

impl Timeouts {
    /// Those of a run whose words say nothing of them, as the command line's own defaults: a day, two minutes and ten minutes.
    pub fn of_a_run() -> Timeouts
        ensures { (result.established ≡ 86400) × (result.transient ≡ 120) × (result.udp ≡ 600) }
    {
        Timeouts {
            established: 86_400,
            transient: 120,
            udp: 600,
        }
    }
}
