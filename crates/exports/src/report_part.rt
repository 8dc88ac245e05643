// The report through C. It requires nothing of its caller; a refusal leaves whatever stands behind a reference as it was.
ghost use Rattle.exports.specs.ReportGiven.{ReportGiven};

// The report: count, least, greatest and sum of Walk's values at X from a to b, or the refusal's number.
#[unsafe(no_mangle)]
pub extern "C" fn panstrait_report(
    n: usize,
    offset: i32,
    records: &[i32],
    a: usize,
    b: usize,
    count: &mut usize,
    least: &mut i32,
    greatest: &mut i32,
    sum: &mut i64,
) -> u8
    ensures { ReportGiven n offset records.now a b count.old least.old greatest.old sum.old result count.new least.new greatest.new sum.new }
{
    match report::report(n, offset, records, a, b) {
        Ok(reported) => {
            *count = reported.count;
            *least = reported.least;
            *greatest = reported.greatest;
            *sum = reported.sum;
            0
        }
        Err(refusal) => u8::from(refusal),
    }
}
