//! What the definition of packets that come of several captures says of each capture.
ghost use Rattle.std.specs.Prelude.{◌≡◌, ℕ, List};
ghost use Rattle.packet_view.specs.Captures.{packets_at};
ghost use Rattle.capture_stream.specs.Arrivals.{IsWhole};
ghost use Rattle.filter_run.specs.Turns.{AreTurns, HaveCome, IsAtEnd, Turn, bytes_at, own_of, packets_of, parts_of, records_at};

/// Of the packets that come of several captures each capture's own are those of its whole records, in their order, whatever came of the
/// others; and a capture whose parts come to its end has ended.
pub fn each_capture_comes_in_its_order()
    ensures whole { (turns : List Turn) → AreTurns turns → (interface : ℕ) → HaveCome (bytes_at interface turns) (records_at interface turns) }
    ensures own { (turns : List Turn) (interface : ℕ) → own_of interface (packets_of turns) ≡ packets_at interface (records_at interface turns) }
    ensures end { (turns : List Turn) → AreTurns turns → (interface : ℕ) → IsWhole interface (parts_of turns) → IsAtEnd interface turns }
{}
