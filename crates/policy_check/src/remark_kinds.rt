//! What is right in a policy, but unlikely to be meant.
ghost use Rattle.std.specs.Prelude.{◌≤◌, ◌<◌, length};

use packet_view::Direction;
use std::fmt;
use thiserror::Error;

/// Rules that take all packets of another, by their places, counted from 0.
#[derive(Debug, Drop, PartialEq)]
pub struct Takers {
    pub places: Vec<usize>,
    /// None of them can be left out.
    pub are_least: bool,
}

// The last of the places that follow one on another from this one on, where that are three at least, and else this one, by its
// index.
fn last_in_row(places: &[usize], first: usize) -> usize
    requires { first < length places.now }
    ensures low { first ≤ result }
    ensures high { result < length places.now }
{
    let mut last = first;
    'row: while last + 1 < places.len() && places[last].saturating_add(1) == places[last + 1] {
        last += 1;
    }
    if last - first < 2 { first } else { last }
}

impl fmt::Display for Takers {
    fn fmt<W: fmt::Write>(&self, f: &mut fmt::Formatter<W>) -> fmt::Result {
        let count = self.places.len();
        let rules = if count == 1 { "rule " } else { "rules " };
        write!(f, "{rules}")?;
        let mut next: usize = 0;
        'places: while next < count {
            let last = last_in_row(&self.places, next);
            let between = if next == 0 {
                ""
            } else if last + 1 == count {
                " and "
            } else {
                ", "
            };
            let from = self.places[next].saturating_add(1);
            let to = self.places[last].saturating_add(1);
            if last == next {
                write!(f, "{between}{from}")?;
            } else {
                write!(f, "{between}{from} to {to}")?;
            }
            next = last + 1;
        }
        let take = if count == 1 { "takes" } else { "take" };
        let more = if self.are_least {
            ""
        } else {
            ", and fewer may"
        };
        write!(f, " {take} all its packets{more}")
    }
}

/// What is said of the section of an interface. Rules are counted from 1 in each direction, as the report does.
#[derive(Debug, Drop, PartialEq, Error)]
pub enum Remark {
    /// It has no rule.
    #[error("there is no rule, so each packet of IP is dropped")]
    NoRule,
    /// It has rules for outbound packets, and no own address: no packet is outbound.
    #[error("interface {0} has no mac line, so none of its out rules is looked at")]
    NoMac(u8),
    /// This rule of this direction never decides: the last one named takes all its packets.
    #[error("interface {0}: {way} rule {2} never decides, since rule {3} takes all its packets", way = direction_in_remark(*.1))]
    Shadowed(u8, Direction, u64, u64),
    /// This rule of this direction never decides: these rules take all its packets.
    #[error("interface {0}: {way} rule {2} never decides, since {3}", way = direction_in_remark(*.1))]
    ShadowedTogether(u8, Direction, u64, Takers),
    /// It wasn't found out whether this rule of this direction ever decides.
    #[error("interface {0}: it isn't known whether {way} rule {2} ever decides, since there are too many cases to try; ask about one of its packets", way = direction_in_remark(*.1))]
    NotKnown(u8, Direction, u64),
    /// The source of this rule has bits behind the length of its prefix.
    #[error("interface {0}: the source of {way} rule {2} has bits behind its prefix, which aren't looked at", way = direction_in_remark(*.1))]
    SourceBits(u8, Direction, u64),
    /// So has its destination.
    #[error("interface {0}: the destination of {way} rule {2} has bits behind its prefix, which aren't looked at", way = direction_in_remark(*.1))]
    DestBits(u8, Direction, u64),
    /// Its destination is one address, which reads as the mask of a network with so many bits.
    #[error("interface {0}: the destination of {way} rule {2} is one address, which reads as a mask; a network is written ADDRESS/{3}", way = direction_in_remark(*.1))]
    Mask(u8, Direction, u64, u8),
    /// No TCP flags are this rule's: its value has bits outside its mask.
    #[error("interface {0}: {way} rule {2} matches no flags, since its value has bits outside its mask", way = direction_in_remark(*.1))]
    UnmatchedFlags(u8, Direction, u64),
}

/// That a policy has no rule for the interface of a capture with this number.
#[derive(Clone, Copy, Debug, PartialEq, Eq, Error)]
#[error("interface {0} has no rule, so each of its packets of IP is dropped")]
pub struct Unruled(pub u8);

// The word that a remark has for the direction of its rule.
fn direction_in_remark(direction: Direction) -> &'static str {
    match direction {
        Direction::Inbound => "in",
        Direction::Outbound => "out",
    }
}
