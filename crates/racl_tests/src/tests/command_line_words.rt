//! Words of the command line that show in few reports. `tests/run` has what the others do, and
//! `tests/rows/sessions.txt` what timeouts do.
use racl_options::{Lines, Options, TableSize, options};
use session_state::{Shown, Timeouts};
use std::alloc::Global;

// For tests of words of the command line: the options that they set.
fn set_after<'a>(alloc: Global, words: &'a [&'a str]) -> Option<Options> {
    match options(alloc, words) {
        Ok(asked) => Some(asked.options),
        Err(_) => None,
    }
}

// The number of workers shows in no report, and the size of the tables only where they have little room.
#[test]
fn words_set_the_options(rt: HostRuntime) {
    const TIMES: Timeouts = Timeouts {
        established: 86400,
        transient: 120,
        udp: 600,
    };
    const DEFAULTS: Options = Options {
        workers: 1,
        times: TIMES,
        tables: TableSize::Standard,
        shown: Shown::Every,
        lines: Lines::Plain,
        hits: false,
        sessions: false,
        live: false,
        ages: false,
    };
    const MOST: Options = Options {
        workers: 16,
        times: TIMES,
        tables: TableSize::Large,
        shown: Shown::Every,
        lines: Lines::Plain,
        hits: false,
        sessions: false,
        live: false,
        ages: true,
    };
    const CASES: [(&[&str], Options); 3] = [
        (&["racl"], DEFAULTS),
        (&["racl", "--workers", "1"], DEFAULTS),
        (
            &["racl", "--tables=large", "--age", "--workers", "16"],
            MOST,
        ),
    ];
    for (words, wanted) in CASES {
        assert!(rt; set_after(rt.alloc(), words) == Some(wanted));
    }
}
