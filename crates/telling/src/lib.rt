// What a cost row gives in C: a number, and answers in a lent list (rule 25.13 of docs/SPECIFICATION.md).
#![tactic(auto)]

ghost use Rattle.std.specs.Prelude.{◌≡◌, ◌≤◌, length};
ghost use Rattle.telling.specs.Told.{number_of_costs, answers_of_costs};

use gencost::Costs;
use rules::Refusal;

// Writes the coefficients, c0 first as in a row, and gives the number.
pub fn tell_costs(costs: Result<Costs, Refusal>, answers: &mut [i64]) -> u32
    requires { 3 ≤ length answers.old }
    ensures { (result ≡ number_of_costs costs) × (answers.new ≡ answers_of_costs costs answers.old) }
{
    match costs {
        Err(r) => refusal_number::number(r),
        Ok(Costs { c2, c1, c0 }) => {
            answers[..3].copy_from_slice(&[i64::from(c0), i64::from(c1), i64::from(c2)]);
            0
        }
    }
}
