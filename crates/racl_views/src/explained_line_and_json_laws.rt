//! What readers of explained lines and of objects expect.
ghost use Rattle.std.specs.Prelude.{◌≡◌, ◌<◌, ◌^◌, ◌++◌, ℕ, List, Option, codes, decimal};
ghost use Rattle.json.specs.Print.{IsNumber};
ghost use Rattle.json.specs.Tree.{HasNumbers};
ghost use Rattle.session_state.specs.Sessions.{SessionFacts};
ghost use Rattle.session_state.specs.declared.timeouts.Timeouts.{Timeouts};
ghost use Rattle.racl_io.specs.Reports.{line_of};
ghost use Rattle.racl_io.specs.declared.totals_and_truncation.Captured.{Captured};
ghost use Rattle.racl_io.specs.declared.totals_and_truncation.Totals.{Totals};
ghost use Rattle.racl_views.specs.Entries.{EntryFacts};
ghost use Rattle.racl_views.specs.ExplainedLines.{explained_line};
ghost use Rattle.racl_views.specs.Hits.{hit_object};
ghost use Rattle.racl_views.specs.Objects.{ReadsBack};
ghost use Rattle.racl_views.specs.PacketObjects.{packet_object, totals_object, truncation_object};
ghost use Rattle.racl_views.specs.SessionLines.{FlowFacts, session_object};
ghost use Rattle.racl_views.specs.declared.hit_counts.Hit.{Hit};

/// The form of the report in explained lines: each begins with the plain report's line, up to its line feed.
pub fn explained_lines_begin_as_the_report()
    ensures { (texts : List (List ℕ)) (named : Option ℕ) (n : ℕ) (entry : EntryFacts) → (front rest : List ℕ)
        × (line_of named n entry.verdict ≡ front ++ codes "\n") × (explained_line texts named n entry ≡ front ++ rest) }
{}

/// The form of the report in JSON: an object's line, up to its line feed, has no line feed and is a document that says
/// this object, where the texts of its numbers are numbers: those of less than 2^64 are, and no others are written.
pub fn objects_read_back()
    ensures numbers { (n : ℕ) → n < 2 ^ 64 → IsNumber (decimal n) }
    ensures packet { (texts : List (List ℕ)) (n : ℕ) (entry : EntryFacts) → HasNumbers (packet_object texts n entry)
        → ReadsBack (packet_object texts n entry) }
    ensures truncation { (captured : Captured) → HasNumbers (truncation_object captured) → ReadsBack (truncation_object captured) }
    ensures totals { (totals : Totals) → HasNumbers (totals_object totals) → ReadsBack (totals_object totals) }
    ensures hit { (texts : List (List ℕ)) (hit : Hit) → HasNumbers (hit_object texts hit) → ReadsBack (hit_object texts hit) }
    ensures session { (times : Timeouts) (flow : FlowFacts) (session : SessionFacts) → HasNumbers (session_object times flow session)
        → ReadsBack (session_object times flow session) }
{}
