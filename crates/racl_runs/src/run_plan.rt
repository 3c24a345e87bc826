//! How much of an input is read before its packets are judged, and what is prepared for them: the plan of a run.
ghost use Rattle.std.specs.Prelude.{◌≤◌};

use racl_options::Options;

/// How many bytes of an input are read at first for one worker.
const ONE_FRONT: usize = 262_144;

/// How many bytes of an input are read at first for several workers: so many that their packets may pay for a thread each.
const SEVERAL_FRONT: usize = 3_145_728;

/// For how many packets rules are prepared where it isn't known how many come.
pub const EXPECTED: usize = 16_777_216;

/// How many bytes a record of a small frame has.
const SMALL_RECORD: usize = 64;

/// How many bytes of an input are read, at least, before its packets are judged.
pub fn front_bytes(options: &Options) -> usize
    ensures { result ≤ 3145728 }
{
    if options.workers > 1 {
        SEVERAL_FRONT
    } else {
        ONE_FRONT
    }
}

/// For how many packets rules are prepared where so many bytes were read of an input's front: as many as these have of small frames
/// where they are all, and else many.
pub fn expected_packets(options: &Options, bytes: usize) -> usize
    ensures { result ≤ 16777216 }
{
    if bytes < front_bytes(options) {
        bytes / SMALL_RECORD
    } else {
        EXPECTED
    }
}
