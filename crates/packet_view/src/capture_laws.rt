//! What a reader of the format expects of the definitions, proved of all captures at once.
ghost use Rattle.std.specs.Prelude.{◌≡◌, ◌≤◌, ◌⊎◌, ℕ, List, take};
ghost use Rattle.packet_view.specs.declared.capture.CaptureFault.{CaptureFault};
ghost use Rattle.packet_view.specs.Bytes.{AreBytes};
ghost use Rattle.packet_view.specs.Captures.{End, IsCapture, IsCaptureFault, RecordFacts};

/// All bytes are a capture or have a fault: one of these, with its packets and end in one way, or one fault.
pub fn each_capture_has_one_reading()
    ensures some { (bytes : List ℕ) → ((records : List RecordFacts) × (end : End) × IsCapture bytes records end)
        ⊎ ((fault : CaptureFault) × IsCaptureFault bytes fault) }
    ensures one { (bytes : List ℕ) (records others : List RecordFacts) (end other : End) → AreBytes bytes →
        IsCapture bytes records end → IsCapture bytes others other → (records ≡ others) × (end ≡ other) }
    ensures apart { (bytes : List ℕ) (records : List RecordFacts) (end : End) (fault : CaptureFault) → AreBytes bytes →
        IsCapture bytes records end → IsCaptureFault bytes fault → ⊥ }
    ensures fault { (bytes : List ℕ) (fault other : CaptureFault) → AreBytes bytes →
        IsCaptureFault bytes fault → IsCaptureFault bytes other → fault ≡ other }
{}

/// A capture that is cut anywhere after its header is a capture of the front of its packets.
pub fn a_cut_capture_keeps_its_front()
    ensures { (bytes : List ℕ) (records : List RecordFacts) (end : End) (kept : ℕ) → IsCapture bytes records end → 24 ≤ kept →
        (count : ℕ) × (last : End) × IsCapture (take kept bytes) (take count records) last }
{}
