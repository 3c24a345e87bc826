//! Packets that are taken one by one, of which the next ones are found before they are asked for.
ghost use Rattle.std.specs.Prelude.{◌≡◌, ◌-◌, ◌≤◌, ◌++◌, [], drop, length, map, take};
ghost use Rattle.packet_view.specs.Captures.{Takes, packet_facts};
ghost use Rattle.packet_view.specs.CheckedCaptures.{BurstFacts, remaining};

use crate::packet::Packet;
use crate::packets::Packets;
use crate::packets_of_records::BURST;
use std::marker::Model;

/// Packets that are taken one by one, in their order. The next ones are found before they are asked for, in a loop of
/// their own: in it, where records keep as many bytes as the one before, the next is reached before this one was read.
#[derive(Drop)]
pub struct PacketBursts<'a> {
    rest: Packets<'a>,
    found: [Packet<'a>; BURST],
    /// The place of the next packet among those that were found.
    at: usize,
    /// How many were found.
    end: usize,
}

impl<'a> Model for PacketBursts<'a> {
    ghost Value = { BurstFacts };

    ghost view = { λ a. record {
      left = map packet_facts (drop a.at (take a.end a.found)) ++ remaining a.rest;
      ready = a.end - a.at;
    } };

    ghost invariant = { λ a. (a.at ≤ a.end) × (a.end ≤ 64) × (length a.found ≡ 64) };
}

impl<'a> PacketBursts<'a> {
    /// These packets. None is found before the first is asked for.
    pub fn new(packets: Packets<'a>) -> PacketBursts<'a>
        ensures { result.left ≡ remaining packets.entry }
    {
        let unused = Packet {
            interface: 0,
            moment: 0,
            micros: 0,
            frame: &[],
        };
        PacketBursts {
            rest: packets,
            found: [unused; BURST],
            at: 0,
            end: 0,
        }
    }

    /// Takes the first packet that is left.
    #[inline]
    pub fn next(&mut self) -> Option<Packet<'a>>
        ensures { Takes self.old.left result self.new.left }
    {
        if self.at == self.end {
            self.fill();
            if self.at == self.end {
                return None;
            }
        }
        let packet = self.found[self.at];
        self.at += 1;
        Some(packet)
    }

    /// The next packets, as many as were found and are not yet taken, in their order.
    #[inline]
    pub fn found_ahead(&self) -> &[Packet<'a>]
        ensures { map packet_facts result.now ≡ take self.now.ready self.now.left }
    {
        &self.found[self.at..self.end]
    }

    // Finds the next packets, where all that were found are taken.
    #[inline(never)]
    fn fill(&mut self)
        requires { self.old.ready ≡ 0 }
        ensures same { self.new.left ≡ self.old.left }
        ensures none { self.new.ready ≡ 0 → self.new.left ≡ [] }
    {
        let mut rest = self.rest;
        let end = rest.take_into(&mut self.found);
        self.rest = rest;
        self.at = 0;
        self.end = end;
    }
}
