//! A whole input through the program, with devices that are slow or fail.
use racl_runs::{Lines, Options, TableSize};
use session_state::{Shown, Timeouts};

mod live;
mod live_interfaces;
mod slow_and_failing_devices;

// For tests of runs: a whole input with a request, its answer, and an answer that nobody asked for.
fn whole_run_input() -> &'static [u8] {
    b"\
mac 02:00:00:00:00:01
out permit+reflect ipv4 10.0.0.1 any udp dport 53
hex
d4c3b2a102000400000000000000000000000400 01000000
64000000 00000000 2a000000 2a000000
020000000002 020000000001 0800
4500001c 00000000 40110000 0a000001 0a000002
03e8 0035 0008 0000
69000000 00000000 2a000000 2a000000
020000000001 020000000002 0800
4500001c 00000000 40110000 0a000002 0a000001
0035 03e8 0008 0000
6a000000 00000000 2a000000 2a000000
020000000001 020000000002 0800
4500001c 00000000 40110000 0a000003 0a000001
0035 03e8 0008 0000
"
}

// For tests of runs: the report on the whole input.
fn whole_run_report() -> &'static [u8] {
    b"\
1 pass rule 1 reflect
2 pass session
3 drop default
packets 3 pass 2 drop 1
"
}

/// The options where no word sets one.
const DEFAULTS: Options = Options {
    workers: 1,
    times: Timeouts {
        established: 86400,
        transient: 120,
        udp: 600,
    },
    tables: TableSize::Standard,
    shown: Shown::Every,
    lines: Lines::Plain,
    hits: false,
    sessions: false,
    live: false,
    ages: false,
};
