//! What the report on one shard of a capture says of the shard.
ghost use Rattle.std.specs.Prelude.{◌≡◌, ◌+◌, ◌++◌, ◌≤◌, IfOk, length};
ghost use Rattle.racl_views.specs.ShardLines;
ghost use Rattle.racl_views.specs.ShardLines.{shard_line, shard_object};

use crate::json_fields::{add_number, begin_json_object, end_json_object};
use crate::sessions_as_text_and_json::{TextOrJson, append_line_text};
use packet_words::push_numbered;
use racl_io::Piece;
use std::alloc::{AllocError, Global};

/// One shard of a capture, of which a report tells.
#[derive(Clone, Copy)]
pub struct ShardOf {
    /// From 1.
    pub number: u64,
    /// How many shards there are.
    pub count: u64,
    /// How many packets the whole capture has.
    pub packets: u64,
    /// The latest second of any of these; 0 where there is none.
    pub latest: u32,
}

// The line that says which shard of a capture a report is of.
fn push_shard(piece: &mut Piece, shard: ShardOf)
    requires { length piece.old + 199 ≤ 262144 }
    ensures { piece.new ≡ piece.old ++ shard_line shard }
{
    push_numbered(piece, b"shard ", shard.number);
    push_numbered(piece, b" of ", shard.count);
    push_numbered(piece, b" of ", shard.packets);
    push_numbered(piece, b" packets until ", u64::from(shard.latest));
    piece.push(b"\n");
}

// The object that says so, behind a text.
fn shard_object_text(text: Vec<u8>, shard: ShardOf) -> Result<Vec<u8>, AllocError>
    ensures { IfOk result (λ new. new.items ≡ text.items ++ shard_object shard) }
{
    let mut object = begin_json_object(&text)?;
    add_number(&mut object, "shard", shard.number)?;
    add_number(&mut object, "shards", shard.count)?;
    add_number(&mut object, "capture_packets", shard.packets)?;
    add_number(&mut object, "capture_until", u64::from(shard.latest))?;
    end_json_object(object, text)
}

/// A line or an object: which shard of how many a report is of, how many packets the whole capture has, and their latest
/// second. An `Err` says that memory ran out.
pub fn shard_text(alloc: Global, view: TextOrJson, shard: ShardOf) -> Result<Vec<u8>, AllocError>
    ensures { IfOk result (λ told. told.items ≡ ShardLines.shard_told view shard) }
{
    match view {
        TextOrJson::Text => {
            let mut piece = Piece::new(alloc)?;
            push_shard(&mut piece, shard);
            append_line_text(Vec::new(alloc), &piece)
        }
        TextOrJson::Json => shard_object_text(Vec::new(alloc), shard),
    }
}
