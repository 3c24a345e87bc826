//! Places where records begin, which are noted while the records are found.
ghost use Rattle.std.specs.Prelude.{◌≡◌, All, length};
ghost use Rattle.packet_view.specs.Marks.{IsMark};

use crate::packets_of_records::Records;

/// How many places are noted.
pub const MARKS: usize = 64;

/// A place among the bytes of records where one begins, or they end.
#[derive(Clone, Copy)]
pub struct Mark {
    /// How many records stand before it.
    pub count: usize,
    /// How many bytes they have.
    pub at: usize,
}

/// The places that are noted while records are found.
#[derive(Drop)]
pub(crate) struct MarkNotes {
    pub(crate) marks: [Mark; MARKS],
    noted: usize,
    apart: usize,
    /// Where fewer bytes are left, the next place is due.
    pub(crate) enough: usize,
    ghost many: { length marks ≡ 64 },
}

impl MarkNotes {
    ghost use Rattle.std.specs.Prelude.{ℕ, All, List};
    ghost use Rattle.packet_view.specs.Marks.{IsMark};
    ghost use Rattle.packet_view.specs.declared.capture.Order.{Order};

    /// No place of so many bytes but the first.
    pub(crate) fn new(bytes: usize) -> MarkNotes
        ensures { (order : Order) (bytes : List ℕ) → All (IsMark order bytes) result.marks }
    {
        let apart = bytes / MARKS;
        MarkNotes {
            marks: [Mark { count: 0, at: 0 }; MARKS],
            noted: 0,
            apart,
            enough: bytes.saturating_sub(apart),
        }
    }

    /// Notes this place, with so many bytes from there on, where one is due.
    pub(crate) fn note(&mut self, mark: Mark, left: usize)
        ensures { (order : Order) (bytes : List ℕ) → IsMark order bytes mark → All (IsMark order bytes) self.old.marks → All (IsMark order bytes) self.new.marks }
    {
        if left < self.enough && self.noted < MARKS {
            self.marks[self.noted] = mark;
            self.noted += 1;
            self.enough = left.saturating_sub(self.apart);
        }
    }
}

/// Records that are known to be whole, and places where some of them begin.
#[derive(Clone, Copy)]
pub struct MarkedRecords<'a> {
    pub records: Records<'a>,
    pub marks: &'a [Mark],
    pub ghost marked: { All (IsMark records.order records.bytes.now) marks.now },
}

impl<'a> MarkedRecords<'a> {
    ghost use Rattle.std.specs.Prelude.{◌≡◌, ◌≤◌, drop};
    ghost use Rattle.packet_view.specs.CheckedCaptures.{packets_of};

    /// The records from a place on that was noted, and how many are before it: as many as can be, and no more than so many.
    pub(crate) fn from_last_before(&self, count: usize) -> (Records<'a>, usize)
        ensures from { packets_of result.0 ≡ drop result.1 (packets_of self.now.records) }
        ensures before { result.1 ≤ count }
    {
        let records = self.records;
        let mut last = Mark { count: 0, at: 0 };
        for mark in self.marks {
            if last.count < mark.count && mark.count <= count.min(records.count) {
                last = *mark;
            }
        }
        let rest = Records {
            bytes: &records.bytes[last.at..],
            order: records.order,
            interface: records.interface,
            count: records.count - last.count,
        };
        (rest, last.count)
    }
}
