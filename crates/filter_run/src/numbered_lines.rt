//! What is told of packets by numbers that are given.
ghost use Rattle.std.specs.Prelude.{◌≡◌, ◌-◌, ◌<◌, ◌^◌, IfErr, IfOk, length};
ghost use Rattle.packet_view.specs.CheckedCaptures.{remaining};
ghost use Rattle.racl_io.specs.Reports;
ghost use Rattle.racl_io.specs.Tellings.{HasToldText};
ghost use Rattle.racl_io.specs.declared.fault.Fault.TheVariants.{Memory};
ghost use Rattle.capture_shards.specs.Sharing.{lines_at};
ghost use Rattle.filter_run.specs.Batches.{AreNumbers};

use packet_view::Packets;
use racl_io::{Device, Fault, Sink, Teller, write_all};
use session_state::Verdict;
use std::alloc::Global;

// What is told of each of these packets by its number, and how many of them pass.
fn text_of<L: Teller>(
    alloc: Global,
    teller: &mut L,
    numbers: &[u64],
    packets: Packets<'_>,
    verdicts: &[Verdict],
) -> Result<(Vec<u8>, u64), Fault>
    requires numbers { AreNumbers (length verdicts.now) numbers.now }
    requires each { length verdicts.now ≡ length (remaining packets) }
    ensures text { IfOk result (λ r. r.0.items ≡ lines_at (L.wording teller.old) numbers.now (remaining packets.entry) verdicts.now) }
    ensures passed { IfOk result (λ r. r.1 ≡ Reports.passed verdicts.now) }
    ensures same { L.wording teller.new ≡ L.wording teller.old }
    ensures memory { IfErr result (λ fault. fault ≡ Memory) }
{
    let mut text = Device::new(Vec::new(alloc));
    let mut passed = 0;
    let mut packets = packets;
    let mut left = numbers;
    let mut said = verdicts;
    'packets: while let Some((verdict, said_behind)) = said.split_first() {
        let Some((number, behind)) = left.split_first() else {
            break;
        };
        let Some(packet) = packets.next() else {
            break;
        };
        let before = *number as usize - 1;
        match teller.tell(&mut text, before, Packets::Slice(&[packet]), &[*verdict]) {
            Ok(passing) => passed += passing,
            Err(_) => return Err(Fault::Memory),
        }
        left = behind;
        said = said_behind;
    }
    let Device { inner, .. } = text;
    Ok((inner, passed))
}

/// Tells each of these packets by its number, all of them at once, and answers how many of them pass.
pub fn tell_numbered<L: Teller, W: Sink>(
    alloc: Global,
    teller: &mut L,
    writer: &mut W,
    numbers: &[u64],
    packets: Packets<'_>,
    verdicts: &[Verdict],
) -> Result<u64, Fault>
    requires sound { W.failures writer.old < 2 ^ 64 - 1 }
    requires numbers { AreNumbers (length verdicts.now) numbers.now }
    requires each { length verdicts.now ≡ length (remaining packets) }
    ensures told { HasToldText W.bytes W.failures writer.old writer.new (lines_at (L.wording teller.old) numbers.now (remaining packets.entry) verdicts.now) result }
    ensures passed { IfOk result (λ n. n ≡ Reports.passed verdicts.now) }
    ensures same { L.wording teller.new ≡ L.wording teller.old }
{
    let (text, passed) = text_of(alloc, teller, numbers, packets, verdicts)?;
    match write_all(writer, &text) {
        Ok(()) => Ok(passed),
        Err(fault) => Err(fault),
    }
}
