// The number of each refusal (rule 4.2 of docs/SPECIFICATION.md), apart from the rules: an edit of a rule does not pay for it.
#![tactic(auto)]

ghost use Rattle.std.specs.Prelude.{◌≡◌};
ghost use Rattle.rules.specs.Refusal.{number_of};

use rules::Refusal;

pub fn number(r: Refusal) -> u32
    ensures { result ≡ number_of r }
{
    match r {
        Refusal::BufferTooShort => 1,
        Refusal::FileTooShort => 2,
        Refusal::EditionUnknown => 3,
        Refusal::CountOutOfRange => 4,
        Refusal::DemandOutOfRange => 5,
        Refusal::ContentsInvalid => 6,
        Refusal::ZoneCountInvalid => 7,
        Refusal::CoefficientOutOfRange => 8,
        Refusal::LimitsInvalid => 9,
        Refusal::RampOrMarkOutOfRange => 10,
        Refusal::NoAllocation => 11,
        Refusal::RowsInvalid => 12,
        Refusal::FileBufferTooShort => 13,
        Refusal::MultiplierOutOfRange => 14,
        Refusal::ReplyMalformed => 15,
        Refusal::RequestLengthInvalid => 16,
        Refusal::AnswerTooShort => 17,
        Refusal::LossesOutOfRange => 18,
        Refusal::OutputCountInvalid => 19,
        Refusal::DemandsInvalid => 20,
        Refusal::FloorsTooShort => 21,
        Refusal::DayDemandsInvalid => 22,
        Refusal::DayBuffersTooShort => 23,
        Refusal::CaseChanged => 24,
        Refusal::BudgetOutOfRange => 25,
        Refusal::GencostMalformed => 26,
        Refusal::GencostNotWhole => 27,
        Refusal::GencostAboveLimit => 28,
    }
}
