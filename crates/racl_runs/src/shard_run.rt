//! One run over the packets of one shard of a capture, which is told while it is read.
ghost use Rattle.std.specs.Prelude.{◌≡◌, ◌-◌, ◌<◌, ◌^◌, IfSome, MatchResult};
ghost use Rattle.capture_stream.specs.Lives.{with_read};
ghost use Rattle.capture_stream.specs.Savings.{Outputs};
ghost use Rattle.racl_options.specs.ShardWords.{shard_facts};
ghost use Rattle.racl_report.specs.declared.saved_packets.Saves.{Saves};
ghost use Rattle.racl_runs.specs.LiveSaves.{failures_in};
ghost use Rattle.racl_runs.specs.ShardRuns.{HasFailedOnce, HasRunShard, IsShardFault};
ghost use Rattle.racl_runs.specs.inner.OwnRuns.{IsShardOver};

use crate::asked_lines::AskedLines;
use crate::capture_header_reading::keep_header;
use crate::live_run::{LiveAsked, LiveHead, LiveWay, tell_capture};
use crate::live_saves::LiveSaves;
use crate::run_plan::EXPECTED;
use acl_policy::read_policy;
use capture_shards::Shard;
use filter_run::CaptureStart;
use flow_workers::Filter;
use racl_io::{Fault, Sink, Source, Totals};
use racl_options::{ShardAsked, TableSize};
use std::alloc::Global;
use std::sync::Wait;
use std::thread::Threads;
use std::time::Clock;

/// What a run over the packets of a shard is asked for.
#[derive(Clone, Copy)]
pub struct ShardRunAsked<'t> {
    pub run: LiveAsked<'t>,
    pub shard: ShardAsked,
}

// The shard that is asked for, over tables of this size.
fn shard_over(asked: ShardAsked, tables: TableSize) -> Shard
    ensures { IsShardOver tables asked result }
{
    match tables {
        TableSize::Standard => Shard {
            number: asked.number,
            count: asked.count,
            log2_four: 12,
            log2_six: 10,
        },
        TableSize::Large => Shard {
            number: asked.number,
            count: asked.count,
            log2_four: 16,
            log2_six: 16,
        },
    }
}

/// Filters the packets of one shard of a capture by a policy with this text, and writes the report on them that the options ask
/// for: while it reads their lines, with their numbers among all packets, and then what stands behind the lines. Flows fall to
/// shards by the buckets of their keys, other packets by their numbers. Where files are given for packets that are dropped or
/// pass, each gets the shard's as a capture, after each read. As many workers as are asked for judge, over tables of their own,
/// who keep no verdict, so that a capture may be of any length. Where no verdict of all shards' runs says no-pages, and ageing is
/// in time, the verdicts on each packet are those of the one run, and the totals of all shards add up to its own
/// (`shards_give_one_report`). A fault leaves what was written and saved; but for Write no totals stand behind it.
pub fn run_shard<R: Source, W: Sink, S: Sink, T: Clock + Threads + Wait + Sync>(
    rt: &T,
    alloc: Global,
    asked: ShardRunAsked<'_>,
    reader: &mut R,
    writer: &mut W,
    saves: &mut LiveSaves<S>,
) -> Result<Totals, Fault>
    requires reader { R.failures reader.old < 2 ^ 64 - 1 }
    requires writer { W.failures writer.old < 2 ^ 64 - 1 }
    requires files { IfSome saves.old.files.drops (λ file. S.failures file < 2 ^ 64 - 1) × IfSome saves.old.files.passes (λ file. S.failures file < 2 ^ 64 - 1) }
    ensures told { let old : Outputs (Saves S) = record { report = W.bytes writer.old; saver = saves.old.files } in let new : Outputs (Saves S) = record { report = W.bytes writer.new; saver = saves.new.files } in
        MatchResult result (HasRunShard S.bytes asked.entry.run.options.now (shard_facts asked.entry.shard) asked.entry.run.text.now (R.bytes reader.old) old new)
        (IsShardFault T S.bytes asked.entry.run.options.now (shard_facts asked.entry.shard) asked.entry.run.text.now (R.bytes reader.old) (R.bytes reader.new) old new) }
    ensures read { MatchResult result (λ _. R.failures reader.new ≡ R.failures reader.old) (λ fault. R.failures reader.new ≡ with_read (R.failures reader.old) fault) }
    ensures write { HasFailedOnce result (W.failures writer.old) (W.failures writer.new) (failures_in S.failures saves.old.files) (failures_in S.failures saves.new.files) }
{
    let LiveAsked { options, text } = asked.run;
    let policy = match read_policy(alloc, text) {
        Ok(policy) => policy,
        Err(cause) => return Err(Fault::from(cause)),
    };
    let mut header = Vec::new(alloc);
    let order = match keep_header(reader, &mut header) {
        Ok(order) => order,
        Err(fault) => return Err(fault),
    };
    let shard = shard_over(asked.shard, options.tables);
    let filter = Filter {
        policy,
        times: options.times,
    };
    let Ok(prepared) = filter.prepare(alloc, EXPECTED) else {
        return Err(Fault::Memory);
    };
    let Ok(ready) = filter.ready_with(alloc, &prepared) else {
        return Err(Fault::Memory);
    };
    let way = LiveWay {
        options,
        text,
        filter: &ready,
    };
    let Ok(lines) = AskedLines::new(alloc, way, false) else {
        return Err(Fault::Memory);
    };
    match saves.begin(header.as_slice()) {
        Ok(()) => {}
        Err(fault) => return Err(fault),
    }
    let start = CaptureStart::behind_header(alloc, order);
    let head = LiveHead {
        alloc,
        way,
        start,
        shard: Some(shard),
    };
    tell_capture(rt, head, reader, writer, lines, saves)
}
