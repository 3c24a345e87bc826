//! A packet of a region.
ghost use Rattle.std.specs.Prelude.{◌≡◌, ◌≤◌, ◌<◌, ◌^◌, ℕ, IfSome, None, false, true};
ghost use Rattle.packet_view.specs.Addresses.{address_limit};
ghost use Rattle.packet_view.specs.Tuples.{TupleFacts, tuple_facts};
ghost use Rattle.packet_view.specs.declared.tuple.Fields.{Fields};
ghost use Rattle.packet_view.specs.declared.tuple.Fields.TheVariants.{Absent, Icmp, Ports, Tcp};
ghost use Rattle.acl_policy.specs.Matching.{IsIn};
ghost use Rattle.rule_cover.specs.Covers.{IsPacket};
ghost use Rattle.rule_cover.specs.inner.Regions.{AreFieldsOf, HasFlags, HasNumbers, IsBeside, IsInRegion};

use crate::region::{Numbers, Region, Shown};
use acl_policy::icmp_number;
use packet_view::{Family, Fields, Tuple};

// The least number of a range of a region, where that is at most so much.
fn least(range: (u128, u128), most: u128) -> Option<u128>
    ensures some { IfSome result (λ n. IsIn range n × (n ≤ most)) }
    ensures none { result ≡ None → (n : ℕ) → n ≤ most → IsIn range n → ⊥ }
{
    if range.0 <= range.1 && range.0 <= most {
        Some(range.0)
    } else {
        None
    }
}

// A port in a range of a region.
fn word_in(range: (u128, u128)) -> Option<u16>
    ensures some { IfSome result (IsIn range) }
    ensures none { result ≡ None → (n : ℕ) → n < 2 ^ 16 → IsIn range n → ⊥ }
{
    let Some(n) = least(range, 65535) else {
        return None;
    };
    Some(n as u16)
}

// A type, a code or a protocol in a range of a region.
fn byte_in(range: (u128, u128)) -> Option<u8>
    ensures some { IfSome result (IsIn range) }
    ensures none { result ≡ None → (n : ℕ) → n < 2 ^ 8 → IsIn range n → ⊥ }
{
    let Some(n) = least(range, 255) else {
        return None;
    };
    Some(n as u8)
}

// An address of the family in a range of a region.
fn address_in(family: Family, range: (u128, u128)) -> Option<u128>
    ensures some { IfSome result (λ address. IsIn range address × (address < address_limit family)) }
    ensures none { result ≡ None → (address : ℕ) → address < address_limit family → IsIn range address → ⊥ }
{
    match family {
        Family::V4 => least(range, u128::from(u32::MAX)),
        Family::V6 => least(range, u128::MAX),
    }
}

// A protocol, where it is in a range of a region.
fn known_protocol(proto: u8, range: (u128, u128)) -> Option<u8>
    ensures some { IfSome result (λ n. (n ≡ proto) × IsIn range n) }
    ensures none { result ≡ None → IsIn range proto → ⊥ }
{
    if range.0 <= u128::from(proto) && u128::from(proto) <= range.1 {
        Some(proto)
    } else {
        None
    }
}

// A protocol in a range of a region, beside which packets show this.
fn protocol_in(family: Family, shown: Shown, range: (u128, u128)) -> Option<u8>
    ensures some { IfSome result (λ proto. IsBeside family shown proto × IsIn range proto) }
    ensures none { result ≡ None → (proto : ℕ) → proto < 2 ^ 8 → IsBeside family shown proto → IsIn range proto → ⊥ }
{
    match shown {
        Shown::Nothing => byte_in(range),
        Shown::PortPair => known_protocol(17, range),
        Shown::PortsAndFlags => known_protocol(6, range),
        Shown::TypeAndCode => known_protocol(icmp_number(family), range),
    }
}

// Flags of a region's packets.
fn flags_in(numbers: &Numbers) -> Option<u8>
    ensures some { IfSome result (HasFlags numbers.now.ones numbers.now.zeros) }
    ensures none { result ≡ None → (flags : ℕ) → HasFlags numbers.now.ones numbers.now.zeros flags → ⊥ }
{
    if numbers.ones & numbers.zeros == 0 {
        Some(numbers.ones)
    } else {
        None
    }
}

// Whether packets of a region may have no flags.
fn may_lack_flags(numbers: &Numbers) -> bool
    ensures yes { result ≡ true → HasFlags numbers.now.ones numbers.now.zeros 0 }
    ensures no { result ≡ false → HasFlags numbers.now.ones numbers.now.zeros 0 → ⊥ }
{
    numbers.ones == 0
}

// Whether packets of a region may show nothing.
fn may_show_nothing(numbers: &Numbers) -> bool
    ensures yes { result ≡ true → HasNumbers numbers.now Absent }
    ensures no { result ≡ false → HasNumbers numbers.now Absent → ⊥ }
{
    numbers.first.0 == 0 && numbers.second.0 == 0 && may_lack_flags(numbers)
}

// The ports of UDP in a packet of a region.
fn ports_in(numbers: &Numbers) -> Option<(u16, u16)>
    ensures some { IfSome result (λ ports. HasNumbers numbers.now (Ports ports.0 ports.1)) }
    ensures none { result ≡ None → (from to : ℕ) → from < 2 ^ 16 → to < 2 ^ 16 → HasNumbers numbers.now (Ports from to) → ⊥ }
{
    if !may_lack_flags(numbers) {
        return None;
    }
    let Some(from) = word_in(numbers.first) else {
        return None;
    };
    let Some(to) = word_in(numbers.second) else {
        return None;
    };
    Some((from, to))
}

// The ports and flags of TCP in a packet of a region.
fn segment_in(numbers: &Numbers) -> Option<(u16, u16, u8)>
    ensures some { IfSome result (λ shown. HasNumbers numbers.now (Tcp shown.0 shown.1 shown.2)) }
    ensures none { result ≡ None → (from to flags : ℕ) → from < 2 ^ 16 → to < 2 ^ 16 → HasNumbers numbers.now (Tcp from to flags) → ⊥ }
{
    let Some(from) = word_in(numbers.first) else {
        return None;
    };
    let Some(to) = word_in(numbers.second) else {
        return None;
    };
    let Some(flags) = flags_in(numbers) else {
        return None;
    };
    Some((from, to, flags))
}

// The type and code of ICMP in a packet of a region.
fn message_in(numbers: &Numbers) -> Option<(u8, u8)>
    ensures some { IfSome result (λ shown. HasNumbers numbers.now (Icmp shown.0 shown.1)) }
    ensures none { result ≡ None → (kind code : ℕ) → kind < 2 ^ 8 → code < 2 ^ 8 → HasNumbers numbers.now (Icmp kind code) → ⊥ }
{
    if !may_lack_flags(numbers) {
        return None;
    }
    let Some(kind) = byte_in(numbers.first) else {
        return None;
    };
    let Some(code) = byte_in(numbers.second) else {
        return None;
    };
    Some((kind, code))
}

// What a packet of a region shows.
fn fields_in(shown: Shown, numbers: &Numbers) -> Option<Fields>
    ensures some { IfSome result (AreFieldsOf shown numbers.now) }
    ensures none { result ≡ None → (fields : Fields) → AreFieldsOf shown numbers.now fields → ⊥ }
{
    match shown {
        Shown::Nothing => {
            if may_show_nothing(numbers) {
                Some(Fields::Absent)
            } else {
                None
            }
        }
        Shown::PortPair => match ports_in(numbers) {
            Some((from, to)) => Some(Fields::Ports { from, to }),
            None => None,
        },
        Shown::PortsAndFlags => match segment_in(numbers) {
            Some((from, to, flags)) => Some(Fields::Tcp { from, to, flags }),
            None => None,
        },
        Shown::TypeAndCode => match message_in(numbers) {
            Some((kind, code)) => Some(Fields::Icmp { kind, code }),
            None => None,
        },
    }
}

/// A packet of the region, with the least numbers that it may have; None where it has none.
#[tactic(auto, using(crate::proofs::PacketLemmas::suits))]
pub fn packet_in(region: &Region) -> Option<Tuple>
    ensures some { IfSome result (λ tuple. IsPacket (tuple_facts tuple) × IsInRegion region.now (tuple_facts tuple)) }
    ensures none { result ≡ None → (tuple : TupleFacts) → IsPacket tuple → IsInRegion region.now tuple → ⊥ }
{
    let Some(source) = address_in(region.family, region.source) else {
        return None;
    };
    let Some(dest) = address_in(region.family, region.dest) else {
        return None;
    };
    let Some(proto) = protocol_in(region.family, region.shown, region.proto) else {
        return None;
    };
    let Some(fields) = fields_in(region.shown, &region.numbers) else {
        return None;
    };
    Some(Tuple {
        interface: 0,
        family: region.family,
        source,
        dest,
        proto,
        fields,
    })
}
