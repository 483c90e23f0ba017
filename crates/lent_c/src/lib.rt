// The errors as records, of `lent`, for C and Rust, under its clause.
#![tactic(auto)]

ghost use Rattle.lent.specs.Records.{Writes};

use lent::Report;

#[unsafe(no_mangle)]
pub extern "C" fn ownership_reports(numbers: &[u32], count: usize, reports: &mut [Report]) -> u32
    ensures { Writes numbers.now count reports.old reports.new result }
{
    lent::ownership_reports(numbers, count, reports)
}
