// Why a call refuses, and what it answers otherwise: each answers a Result with a Refusal as its error. What these mean is
// docs/SPECIFICATION.md as definitions, in specs/.

// Why a call refuses. Each has a number (rule 4.2): `Refusal.number_of` in specs/, `refusal_number::number` in code.
#![tactic(auto)]

#[derive(Clone, Copy)]
pub enum Refusal {
    // A reply under 92 bytes, rows under 608 numbers, or a panel's answers under two.
    BufferTooShort,
    // A file under 8 bytes.
    FileTooShort,
    // An edition that the call does not take: neither 1 nor 2, in unpacking not 1.
    EditionUnknown,
    // A number of units outside 1 to 32.
    CountOutOfRange,
    // A demand above 320,000 steps.
    DemandOutOfRange,
    // Contents that do not fit in the file, an entry that does not name its body, or an end elsewhere.
    ContentsInvalid,
    // More than four zones, a body whose length they do not fit, or in a row an unused edge that is not zero.
    ZoneCountInvalid,
    // c0, c1, c2 or b above its limit.
    CoefficientOutOfRange,
    // Least or greatest output out of range or order, or a zone's edge out of order.
    LimitsInvalid,
    // Previous output, up step, down step or mark out of range.
    RampOrMarkOutOfRange,
    // No permitted outputs cover the demand after losses.
    NoAllocation,
    // A list of rows that is empty, above 608 numbers, or not 19 to a unit.
    RowsInvalid,
    // A buffer too short for the packed file.
    FileBufferTooShort,
    // A multiplier above 65,536.
    MultiplierOutOfRange,
    // A reply to be viewed that has not the form of a dispatch's.
    ReplyMalformed,
    // A request to a view of another length than 5 bytes.
    RequestLengthInvalid,
    // A buffer under 252 bytes for a view's answer.
    AnswerTooShort,
    // b1 out of range, or losses so large that net does not rise with the output.
    LossesOutOfRange,
    // Outputs to be judged that are not one to a unit.
    OutputCountInvalid,
    // More than 96 demands, or one above 320,000 steps.
    DemandsInvalid,
    // A list for floors that is shorter than that of the demands.
    FloorsTooShort,
    // Of a day: more than 96 demands, or one above 320,000 steps.
    DayDemandsInvalid,
    // Of a day: a trace under 18 bytes a demand, or under 32 histories.
    DayBuffersTooShort,
    CaseChanged,
    // A budget outside 1 to 100,000 nodes.
    BudgetOutOfRange,
    // A cost row of another form than MATPOWER's quadratic one, or of more than 256 bytes.
    GencostMalformed,
    // A cost row with a coefficient that is finer than a unit's coefficient can hold.
    GencostNotWhole,
    // A cost row with a coefficient above the limit of a unit's.
    GencostAboveLimit,
}

// A priced multiplier: its dual value, and whether its choices cover the demand.
#[derive(Clone, Copy)]
pub struct Priced {
    pub dual: i64,
    pub covers: bool,
}

// An unpacked file: the demand, and the number of rows written.
#[derive(Clone, Copy)]
pub struct Unpacked {
    pub demand: u32,
    pub count: u32,
}
