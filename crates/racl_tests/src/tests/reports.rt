//! The lines of a report.
use packet_view::{Packet, Packets};
use racl_io::{Captured, Device, ReportLines, Teller, totals_on};
use session_state::{Shown, Verdict};
use std::test::Fail;

// For tests of reports: one with a line for each verdict.
fn report_of_verdicts() -> &'static [u8] {
    b"\
1 pass session
2 pass rule 1 reflect
3 pass rule 20
4 drop rule 4096
5 drop default
6 drop worn
7 drop full
8 drop no-pages
9 pass not-ip
10 drop malformed
11 drop short
truncated after 11
packets 11 pass 4 drop 7
"
}

/// Reports on a capture without a number, which ends within a record.
#[test]
fn a_report_line_per_verdict(rt: HostRuntime) -> Result<(), Fail> {
    const VERDICTS: [Verdict; 11] = [
        Verdict::Session,
        Verdict::Reflect(1),
        Verdict::Permit(20),
        Verdict::Deny(4096),
        Verdict::ByDefault,
        Verdict::Worn,
        Verdict::Full,
        Verdict::NoPages,
        Verdict::NotIp,
        Verdict::Malformed,
        Verdict::Short,
    ];
    const CAPTURE: Captured = Captured {
        named: None,
        packets: 11,
        truncated: true,
    };
    const PACKETS: [Packet<'static>; 11] = [Packet {
        interface: 0,
        moment: 0,
        micros: 0,
        frame: b"",
    }; 11];
    let mut writer = Device::new(Vec::new(rt.alloc()));
    let mut lines = ReportLines::new(rt.alloc(), Shown::Every, false)?;
    let passed = lines.tell(&mut writer, 0, Packets::Slice(&PACKETS), &VERDICTS)?;
    lines.tell_cut(&mut writer, &CAPTURE)?;
    let totals = totals_on(passed, &VERDICTS, &[CAPTURE]);
    lines.tell_end(&mut writer, &[], &totals)?;
    assert!(rt; writer.inner.as_slice() == report_of_verdicts());
    assert!(rt; (totals.packets, totals.passed, totals.dropped) == (11, 4, 7));
    assert!(rt; totals.truncated);
    Ok(())
}
