// What follows a text of a block.
ghost use Rattle.std.specs.Prelude.{◌≡◌, ◌≢◌, Err};
ghost use Rattle.px_bytes.specs.Devices.{CanCountFailure, device_of};
ghost use Rattle.px_engine.specs.declared.Fault.{Fault};
ghost use Rattle.px_engine.specs.declared.Fault.TheVariants.{WriteFailed};
ghost use Rattle.px_runs.specs.Lines.{FlushesLast};
ghost use Rattle.px_runs.specs.calls.Reporting.{ReportsPrinted, ReportsAfter};

use crate::lines::report_fault;
use px_bytes::Sink;
use px_engine::Fault;

// Reports the fault of a text. If the lines failed, it writes no more to them.
fn report_text_fault<L: Sink>(lines: &mut L, fault: Fault) -> u8
    requires { fault ≢ WriteFailed → CanCountFailure (L.calls lines.old) }
    ensures reported { ReportsAfter fault result (device_of L.calls L.bytes_taken lines.old lines.new) }
    ensures last { FlushesLast (L.calls lines.old) (L.calls lines.new) (L.unflushed lines.new) }
    ensures still { L.calls lines.new ≡ L.calls lines.old → lines.new ≡ lines.old }
{
    if fault == Fault::WriteFailed {
        return 4;
    }
    report_fault(lines, fault, None)
}

// Reports a failed text. A written one needs no further line.
pub(crate) fn report_printed<L: Sink>(lines: &mut L, printed: Result<(), Fault>) -> u8
    requires { (e : Fault) → printed ≡ Err e → e ≢ WriteFailed → CanCountFailure (L.calls lines.old) }
    ensures reported { ReportsPrinted printed result (device_of L.calls L.bytes_taken lines.old lines.new) }
    ensures last { FlushesLast (L.calls lines.old) (L.calls lines.new) (L.unflushed lines.new) }
    ensures still { L.calls lines.new ≡ L.calls lines.old → lines.new ≡ lines.old }
{
    match printed {
        Ok(()) => 0,
        Err(fault) => report_text_fault(lines, fault),
    }
}
