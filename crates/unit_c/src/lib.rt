#![tactic(auto)]
// The unit as firmware written in C calls it (include/settlement.h): one exported function, which is the report service.
ghost use Rattle.std.specs.Prelude.{◌≡◌, length};
ghost use Rattle.rules.specs.Services.{report_answer, report_after};

// The report is written at the front of the space and its length returned, or the number of the first breach, and then nothing is written.
#[unsafe(no_mangle)]
pub extern "C" fn settlement_report(file: &[u8], space: &mut [u8]) -> u64
    ensures answer { result ≡ report_answer file.now (length space.old) }
    ensures after { space.new ≡ report_after file.now space.old }
{
    unit::one_number(unit::settlement_report(file, space))
}
