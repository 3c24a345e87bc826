//! What is told where all is as expected, and the exit status.
ghost use Rattle.std.specs.Prelude.{◌≡◌, ◌-◌, ◌<◌, ◌^◌};
ghost use Rattle.racl_io.specs.Sinks.{HasPutFront};
ghost use Rattle.compared_verdicts.specs.Meeting;
ghost use Rattle.compared_verdicts.specs.Meeting.{met_told};

use crate::verdict_words::push_met;
use racl_io::{Fault, Piece, Sink, write_all};

/// Writes the last line where all of so many expectations are met.
pub fn write_met<W: Sink>(
    writer: &mut W,
    piece: &mut Piece,
    met: bool,
    count: usize,
) -> Result<(), Fault>
    requires { W.failures writer.old < 2 ^ 64 - 1 }
    ensures { HasPutFront W.bytes W.failures writer.old writer.new (met_told met count) result }
{
    if !met {
        return Ok(());
    }
    piece.clear();
    push_met(piece, count as u64);
    write_all(writer, piece.as_slice())
}

/// The status with which the program ends: 5 where an expectation isn't met, else 3 where the capture was cut off, else 0.
pub fn status_of_expected(met: bool, truncated: bool) -> u8
    ensures { result ≡ Meeting.status_of_expected met truncated }
{
    if !met {
        return 5;
    }
    if truncated { 3 } else { 0 }
}
