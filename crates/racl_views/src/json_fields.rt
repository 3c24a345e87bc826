//! Objects of JSON, written field by field (RFC 8259); which keys a packet's object has stands in `json_objects`.
ghost use Rattle.std.specs.Prelude.{◌≡◌, ◌<◌, ◌++◌, [], ◌∷◌, true, List, IfOk, OnOk, map, string_bytes};
ghost use Rattle.json.specs.Json.{boolean};
ghost use Rattle.json.specs.Token.{begin_object};
ghost use Rattle.packet_view.specs.Addresses.{address_limit};
ghost use Rattle.racl_views.specs.Objects.{Field, number, object_line, object_of, string};
ghost use Rattle.racl_views.specs.PacketObjects.{line_fields, way_field};
ghost use Rattle.packet_words.specs.PacketWords.{address_text};
ghost use Rattle.racl_views.specs.RuleTexts.{shown_of};
ghost use Rattle.racl_views.specs.inner.Fields.{HasAdded, fields_tokens};

use crate::rule_table::RuleText;
use crate::rule_texts_in_policy::text_at;
use json::Writer;
use packet_view::{Direction, Family};
use std::alloc::AllocError;
use std::fmt::Write;
use std::net::{Ipv4Addr, Ipv6Addr};

// Most objects have fewer bytes.
const OBJECT_BYTES: usize = 640;

/// Begins an object of JSON, without a field, whose line is put behind this text. It has bytes of its own: the writer
/// fills some ahead, in proportion to what they hold. An `Err` of this and of what follows says that memory ran out.
pub fn begin_json_object(text: &Vec<u8>) -> Result<Writer, AllocError>
    ensures { IfOk result (λ object. (object.before ≡ []) × (object.tokens ≡ begin_object ∷ [])) }
{
    let mut object = Writer::new(Vec::with_capacity(*text.allocator(), OBJECT_BYTES)?);
    object.begin_object()?;
    Ok(object)
}

/// Ends an object of JSON behind its last field, and puts its line behind the text.
pub fn end_json_object(object: Writer, text: Vec<u8>) -> Result<Vec<u8>, AllocError>
    ensures { (fields : List Field) → object.before ≡ [] → object.tokens ≡ begin_object ∷ fields_tokens fields
        → IfOk result (λ new. new.items ≡ text.items ++ object_line (object_of fields)) }
{
    let mut object = object;
    object.end_object()?;
    let mut text = text;
    text.extend_from_slice(&object.into_inner())?;
    text.push(b'\n')?;
    Ok(text)
}

pub fn add_number(object: &mut Writer, key: &str, value: u64) -> Result<(), AllocError>
    ensures { OnOk result (HasAdded object.old object.new (number key.now value ∷ [])) }
{
    object.key(key)?;
    object.u64(value)?;
    Ok(())
}

pub fn add_string(object: &mut Writer, key: &str, text: &str) -> Result<(), AllocError>
    ensures { OnOk result (HasAdded object.old object.new (string key.now text.now ∷ [])) }
{
    object.key(key)?;
    object.string(text)?;
    Ok(())
}

/// The line of a rule in an object of a packet or of hits, and its text, which is one of these.
pub fn add_line<'a>(
    object: &mut Writer,
    texts: &'a [RuleText<'a>],
    line: u64,
) -> Result<(), AllocError>
    ensures { OnOk result (HasAdded object.old object.new (line_fields (map shown_of texts.now) line)) }
{
    add_number(object, "line", line)?;
    add_string(object, "text", text_at(texts, line))?;
    Ok(())
}

/// A field that is true.
pub fn add_true(object: &mut Writer, key: &str) -> Result<(), AllocError>
    ensures { OnOk result (HasAdded object.old object.new ((key.now, boolean true) ∷ [])) }
{
    object.key(key)?;
    object.boolean(true)?;
    Ok(())
}

/// The direction in the object of a packet, or of the hits of a rule.
pub fn add_way(object: &mut Writer, direction: Direction) -> Result<(), AllocError>
    ensures { OnOk result (HasAdded object.old object.new (way_field direction ∷ [])) }
{
    match direction {
        Direction::Inbound => add_string(object, "direction", "in"),
        Direction::Outbound => add_string(object, "direction", "out"),
    }
}

// The text of an address that becomes a field of an object of JSON.
#[tactic(auto, unfolding(std::specs::Net::Addr::IsIpv4OfBits, std::specs::Net::Addr::IsIpv6OfBits))]
fn write_json_address(address: &mut String, family: Family, bits: u128) -> Result<(), AllocError>
    requires { bits < address_limit family }
    ensures { OnOk result (string_bytes address.new ≡ address_text family bits) }
{
    address.clear();
    match family {
        Family::V4 => write!(address, "{}", Ipv4Addr::from_bits(bits as u32)),
        Family::V6 => write!(address, "{}", Ipv6Addr::from_bits(bits)),
    }
}

/// A field that is the address of these bits, of which the text is made in the room.
pub fn add_address(
    object: &mut Writer,
    address: &mut String,
    key: &str,
    family: Family,
    bits: u128,
) -> Result<(), AllocError>
    requires { bits < address_limit family }
    ensures { OnOk result (HasAdded object.old object.new (string key.now (address_text family bits) ∷ [])) }
{
    write_json_address(address, family, bits)?;
    add_string(object, key, address.as_str())?;
    Ok(())
}
