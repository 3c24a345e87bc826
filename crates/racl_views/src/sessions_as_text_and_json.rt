//! What is told of sessions, in lines or objects.
ghost use Rattle.std.specs.Prelude.{◌≡◌, ◌+◌, ◌<◌, ◌≤◌, ◌++◌, ◌∷◌, [], OnOk, IfOk, length};
ghost use Rattle.json.specs.Tree.{json_tokens};
ghost use Rattle.packet_view.specs.Addresses.{address_limit};
ghost use Rattle.session_state.specs.Sessions;
ghost use Rattle.session_state.specs.Sessions.{session_of};
ghost use Rattle.racl_views.specs.Objects.{object_line};
ghost use Rattle.racl_views.specs.SessionLines as line;
ghost use Rattle.racl_views.specs.SessionLines.{end_facts, flow_facts, pair_told, pairs_told, session_told, sessions_told};
ghost use Rattle.racl_views.specs.Stored.{stored_facts};
ghost use Rattle.racl_views.specs.inner.Fields.{HasAdded};

use crate::flow_key::{four_flow, six_flow};
use crate::json_fields::{add_address, add_number, begin_json_object, end_json_object};
use crate::session_counts::StoredPairs;
use crate::stored_flow::{FlowEnd, StoredFlow};
use json::Writer;
use packet_words::{push_address, push_line_flags, push_line_protocol, push_numbered};
use racl_io::Piece;
use session_state::{Session, Timeouts};
use std::alloc::{AllocError, Global};

/// Room in which lines are made: a piece for a line of text, and for an object the text of an address.
#[derive(Drop)]
pub struct Room {
    pub piece: Piece,
    pub address: String,
}

/// In which form hits and sessions are told.
#[derive(Clone, Copy)]
pub enum TextOrJson {
    /// Lines of text.
    Text,
    /// Objects of JSON, one a line.
    Json,
}

// The port of an end in the text of a session, where the protocol has ports.
fn push_flow_end_port(piece: &mut Piece, proto: u8, port: u16)
    requires { length piece.old + 30 ≤ 262144 }
    ensures text { piece.new ≡ piece.old ++ line.port_told proto port }
    ensures short { length piece.new ≤ length piece.old + 30 }
{
    if proto == 6 || proto == 17 {
        push_numbered(piece, b" port ", u64::from(port));
    }
}

// The flags that are kept of an end in the text of a session, where the protocol has flags.
fn push_flow_end_flags(piece: &mut Piece, proto: u8, flags: u8)
    requires { length piece.old + 9 ≤ 262144 }
    ensures text { piece.new ≡ piece.old ++ line.end_flags proto flags }
    ensures short { length piece.new ≤ length piece.old + 9 }
{
    if proto == 6 {
        push_line_flags(piece, flags);
    }
}

// The address, port and flags of an end in the text of a session.
fn push_flow_end(piece: &mut Piece, flow: &StoredFlow, end: FlowEnd, flags: u8)
    requires fits { end.address < address_limit flow.now.family }
    requires room { length piece.old + 145 ≤ 262144 }
    ensures text { piece.new ≡ piece.old ++ line.end_told (flow_facts flow.now) (end_facts end) flags }
    ensures short { length piece.new ≤ length piece.old + 145 }
{
    push_address(piece, flow.family, end.address);
    push_flow_end_port(piece, flow.proto, end.port);
    push_flow_end_flags(piece, flow.proto, flags);
}

// The interface and the protocol of a flow in the text of its session.
fn push_flow(piece: &mut Piece, flow: &StoredFlow)
    requires { length piece.old + 76 ≤ 262144 }
    ensures text { piece.new ≡ piece.old ++ line.flow_told (flow_facts flow.now) }
    ensures short { length piece.new ≤ length piece.old + 76 }
{
    push_numbered(piece, b"session interface ", u64::from(flow.interface));
    push_line_protocol(piece, flow.family, flow.proto);
}

// The last second in which a session is live, as it is told in lines and objects.
fn session_live_until(times: &Timeouts, session: &Session) -> u64
    ensures { result ≡ Sessions.live_until session.now times.now }
{
    u64::from(session.last()) + u64::from(session.timeout(times))
}

// What the text of a session ends with: the latest second of its packets, and the last second in which it is live.
fn push_seconds(piece: &mut Piece, times: &Timeouts, session: &Session)
    requires { length piece.old + 62 ≤ 262144 }
    ensures text { piece.new ≡ piece.old ++ line.seconds_told times.now session.now }
    ensures short { length piece.new ≤ length piece.old + 62 }
{
    push_numbered(piece, b" last ", u64::from(session.last()));
    push_numbered(piece, b" until ", session_live_until(times, session));
    piece.push(b"\n");
}

fn push_session(piece: &mut Piece, times: &Timeouts, flow: &StoredFlow, session: &Session)
    requires { length piece.old + 434 ≤ 262144 }
    ensures { piece.new ≡ piece.old ++ line.session_line times.now (flow_facts flow.now) session.now }
{
    push_flow(piece, flow);
    piece.push(b" ");
    push_flow_end(piece, flow, flow.first, session.flags_seen(0));
    piece.push(b" and ");
    push_flow_end(piece, flow, flow.second, session.flags_seen(1));
    push_seconds(piece, times, session);
}

// The port of an end and the flags that are kept of it in the object of a session, where the protocol has them.
fn add_end_fields(object: &mut Writer, proto: u8, end: FlowEnd, flags: u8) -> Result<(), AllocError>
    ensures { OnOk result (HasAdded object.old object.new (line.end_fields proto (end_facts end) flags)) }
{
    if proto == 6 {
        add_number(object, "port", u64::from(end.port))?;
        add_number(object, "flags", u64::from(flags))?;
    } else if proto == 17 {
        add_number(object, "port", u64::from(end.port))?;
    }
    Ok(())
}

// The address, port and flags of an end in the object of a session.
fn write_flow_end(
    object: &mut Writer,
    address: &mut String,
    flow: &StoredFlow,
    end: FlowEnd,
    flags: u8,
) -> Result<(), AllocError>
    requires { end.address < address_limit flow.now.family }
    ensures { OnOk result ((object.new.before ≡ object.old.before)
        × (object.new.tokens ≡ object.old.tokens ++ json_tokens (line.end_object (flow_facts flow.now) (end_facts end) flags))) }
{
    object.begin_object()?;
    add_address(object, address, "address", flow.family, end.address)?;
    add_end_fields(object, flow.proto, end, flags)?;
    object.end_object()?;
    Ok(())
}

// Both ends of a flow in the object of its session.
fn add_ends(
    object: &mut Writer,
    address: &mut String,
    flow: &StoredFlow,
    session: &Session,
) -> Result<(), AllocError>
    ensures { OnOk result (HasAdded object.old object.new (line.ends_field (flow_facts flow.now) session.now ∷ [])) }
{
    object.key("ends")?;
    object.begin_array()?;
    write_flow_end(object, address, flow, flow.first, session.flags_seen(0))?;
    write_flow_end(object, address, flow, flow.second, session.flags_seen(1))?;
    object.end_array()?;
    Ok(())
}

// The object of a session behind a text.
fn session_object(
    text: Vec<u8>,
    address: &mut String,
    times: &Timeouts,
    flow: &StoredFlow,
    session: &Session,
) -> Result<Vec<u8>, AllocError>
    ensures { IfOk result (λ new. new.items ≡ text.items ++ object_line (line.session_object times.now (flow_facts flow.now) session.now)) }
{
    let mut object = begin_json_object(&text)?;
    add_number(&mut object, "interface", u64::from(flow.interface))?;
    add_number(&mut object, "protocol", u64::from(flow.proto))?;
    add_ends(&mut object, address, flow, session)?;
    add_number(&mut object, "last", u64::from(session.last()))?;
    add_number(&mut object, "until", session_live_until(times, session))?;
    end_json_object(object, text)
}

/// Puts the line that is in the piece behind the text of those before it. An `Err` says that memory ran out.
pub fn append_line_text(text: Vec<u8>, piece: &Piece) -> Result<Vec<u8>, AllocError>
    ensures { IfOk result (λ new. new.items ≡ text.items ++ piece.now) }
{
    let mut text = text;
    text.extend_from_slice(piece.as_slice())?;
    Ok(text)
}

// What is told of a session behind a text.
fn tell_session(
    text: Vec<u8>,
    room: &mut Room,
    view: TextOrJson,
    times: &Timeouts,
    flow: &StoredFlow,
    session: &Session,
) -> Result<Vec<u8>, AllocError>
    ensures { IfOk result (λ new. new.items ≡ text.items ++ session_told view times.now (flow_facts flow.now) session.now) }
{
    match view {
        TextOrJson::Text => {
            room.piece.clear();
            push_session(&mut room.piece, times, flow, session);
            append_line_text(text, &room.piece)
        }
        TextOrJson::Json => session_object(text, &mut room.address, times, flow, session),
    }
}

// What is told of the session of a word, and nothing where it is no session's: then no packet stored it.
fn tell_pair(
    text: Vec<u8>,
    room: &mut Room,
    view: TextOrJson,
    times: &Timeouts,
    flow: &StoredFlow,
    word: u64,
) -> Result<Vec<u8>, AllocError>
    ensures { IfOk result (λ new. new.items ≡ text.items ++ pair_told view times.now (flow_facts flow.now) (session_of word)) }
{
    match Session::from_word(word) {
        Some(session) => tell_session(text, room, view, times, flow, &session),
        None => Ok(text),
    }
}

// What is told of the sessions of IPv4 behind a text.
fn tell_four(
    text: Vec<u8>,
    room: &mut Room,
    view: TextOrJson,
    times: &Timeouts,
    pairs: &[([u64; 2], u64)],
) -> Result<Vec<u8>, AllocError>
    ensures { IfOk result (λ new. new.items ≡ text.items ++ pairs_told line.four_flow view times.now pairs.now) }
{
    let mut told = text;
    'pairs: for pair in pairs {
        told = tell_pair(told, room, view, times, &four_flow(pair.0), pair.1)?;
    }
    Ok(told)
}

// What is told of the sessions of IPv6 behind a text.
fn tell_six(
    text: Vec<u8>,
    room: &mut Room,
    view: TextOrJson,
    times: &Timeouts,
    pairs: &[([u64; 5], u64)],
) -> Result<Vec<u8>, AllocError>
    ensures { IfOk result (λ new. new.items ≡ text.items ++ pairs_told line.six_flow view times.now pairs.now) }
{
    let mut told = text;
    'pairs: for pair in pairs {
        told = tell_pair(told, room, view, times, &six_flow(pair.0), pair.1)?;
    }
    Ok(told)
}

/// What is told of the sessions that the tables hold, a line or an object for each, in the order of their keys, those of IPv4
/// first: the ends of its flow, the TCP flags that are kept of each, the latest second of its packets, and the last second in which
/// it is live. An `Err` says that memory ran out.
pub fn sessions_text(
    alloc: Global,
    view: TextOrJson,
    times: Timeouts,
    stored: &StoredPairs,
) -> Result<Vec<u8>, AllocError>
    ensures { IfOk result (λ told. told.items ≡ sessions_told view times (stored_facts stored.now)) }
{
    let mut room = Room {
        piece: Piece::new(alloc)?,
        address: String::new(alloc),
    };
    let told = tell_four(Vec::new(alloc), &mut room, view, &times, &stored.four)?;
    let told = tell_six(told, &mut room, view, &times, &stored.six)?;
    Ok(told)
}
