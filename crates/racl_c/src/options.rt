//! What C asks for when a judge is made.
ghost use Rattle.std.specs.Prelude.{◌↔◌, ◌≡◌, IsTrue};
ghost use Rattle.racl_c.specs.Options.{AskNothing, ChoiceTold};

use session_state::Timeouts;

/// What a judge is made with. Seconds are how long sessions outlive their last packet.
#[repr(C)]
#[derive(Clone, Copy)]
pub struct Options {
    /// How many bytes this has.
    pub size: u32,
    /// 0 for tables of the usual size, 1 for large ones.
    pub tables: u32,
    pub established: u32,
    pub transient: u32,
    pub udp: u32,
}

/// What was asked for, where it is right.
#[derive(Clone, Copy)]
pub struct Choice {
    pub is_large: bool,
    pub times: Timeouts,
}

// Whether the bytes behind those that are known ask for nothing.
fn ask_nothing(rest: &[u8]) -> bool
    ensures { IsTrue result ↔ AskNothing rest.now }
{
    rest.iter().all(|byte| *byte == 0)
}

/// What was asked for, where these are the bytes behind those that are known. `None`: another size or other tables, a timeout of 0,
/// or something unknown.
pub fn choice_of(options: &Options, rest: &[u8]) -> Option<Choice>
    ensures { ChoiceTold options.now rest.now result }
{
    if options.size as usize != rest.len().saturating_add(20) || !ask_nothing(rest) {
        return None;
    }
    if options.tables > 1 {
        return None;
    }
    if options.established == 0 || options.transient == 0 || options.udp == 0 {
        return None;
    }
    Some(Choice {
        is_large: options.tables == 1,
        times: Timeouts {
            established: options.established,
            transient: options.transient,
            udp: options.udp,
        },
    })
}
