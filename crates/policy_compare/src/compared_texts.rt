//! The report on the policies that two texts say, and why there is none.
ghost use Rattle.std.specs.Prelude.{◌≡◌, ◌≢◌, ◌+◌, ◌-◌, ◌<◌, ◌^◌, ◌↔◌, Err, IfErr, IfOk};
ghost use Rattle.racl_io.specs.declared.fault.Fault.{Fault};
ghost use Rattle.policy_compare.specs.ComparedTexts.{HasCompared, IsCompareFault};
ghost use Rattle.policy_compare.specs.declared.compared_texts.CompareFault.TheVariants as told;

use crate::compared_policies::compare_policies;
use crate::comparison_report::{status_behind, write_comparison};
use acl_policy::{PolicyFault, read_policy};
use racl_io::{Fault, Piece, Sink};
use std::alloc::Global;

/// Why two policies aren't compared.
#[derive(Clone, Copy, Debug, PartialEq, Eq)]
pub enum CompareFault {
    /// The policy so far is none.
    Before(PolicyFault),
    /// The one that is to take its place is none.
    After(PolicyFault),
    /// Memory ran out, or a write failed.
    Run(Fault),
}

/// How many tests of a rule the pairs share that need many.
pub const MOST_TESTS: u64 = 6_553_600;

/// Writes what two policies decide differently, and answers the exit status. Nothing is written before all is found.
pub fn compare_texts<W: Sink>(
    alloc: Global,
    tests: &mut u64,
    before: &[u8],
    after: &[u8],
    writer: &mut W,
) -> Result<u8, CompareFault>
    requires { W.failures writer.old < 2 ^ 64 - 1 }
    ensures ok { IfOk result (HasCompared before.now after.now tests.new (W.bytes writer.old) (W.bytes writer.new)) }
    ensures fault { IfErr result (IsCompareFault before.now after.now) }
    ensures write { (result ≡ Err (told.Run Fault.Write)) ↔ (W.failures writer.new ≡ W.failures writer.old + 1) }
    ensures unwritten { IfErr result (λ fault. fault ≢ told.Run Fault.Write → writer.new ≡ writer.old) }
{
    let old = match read_policy(alloc, before) {
        Ok(policy) => policy,
        Err(cause) => return Err(CompareFault::Before(cause)),
    };
    let new = match read_policy(alloc, after) {
        Ok(policy) => policy,
        Err(cause) => return Err(CompareFault::After(cause)),
    };
    let Ok(told) = compare_policies(alloc, tests, &old, &new) else {
        return Err(CompareFault::Run(Fault::Memory));
    };
    let Ok(mut piece) = Piece::new(alloc) else {
        return Err(CompareFault::Run(Fault::Memory));
    };
    match write_comparison(writer, &mut piece, &told) {
        Ok(()) => Ok(status_behind(&told)),
        Err(fault) => Err(CompareFault::Run(fault)),
    }
}
