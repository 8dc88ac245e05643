// The checks on a table.
ghost use Rattle.std.specs.Prelude.{◌≡◌};
ghost use Rattle.numbers.specs.Lists.{every};
ghost use Rattle.numbers.specs.Ranges.{is_value};
ghost use Rattle.diagram.specs.Inner.Checks.{table_checks};
ghost use Rattle.numbers.specs.Refusals.{answer_of};

use numbers::Refusal;

// Whether every value is in range; a weight list is judged so too.
pub fn values_fit(table: &[i32]) -> bool
    ensures { result ≡ every is_value table.now }
{
    table
        .iter()
        .all(|value| numbers::arithmetic::is_value(*value))
}

// The checks on a table that Build, Plan and Compile share, in their order.
pub fn check_table(n: usize, table: &[i32]) -> Result<(), Refusal>
    ensures { answer_of result ≡ table_checks n table.now }
{
    if !numbers::arithmetic::is_variables(n) {
        return Err(Refusal::Variables);
    }
    if table.len() != numbers::arithmetic::power(n) {
        return Err(Refusal::Length);
    }
    if !values_fit(table) {
        return Err(Refusal::Value);
    }
    Ok(())
}
