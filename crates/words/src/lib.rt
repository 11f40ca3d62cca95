// The words every layer speaks: a proposed step, a refusal, each with its number in documents 01 and 02, and what a call answers with
// them. It uses nothing.
#![tactic(auto)]

mod answers;
mod pairs;
mod refusals;

pub use answers::{Answer, Refused, Verdict, verdict_number};

// A proposed step.
#[derive(Clone, Copy, PartialEq, Eq, Debug)]
pub enum Step {
    Advance,
    Timer(u8),
    Hear(u8),
}

// Why something is refused: one case for each number of document 01 and of the requests of 02 that have landed.
#[derive(Clone, Copy, PartialEq, Eq, Debug)]
pub enum Refusal {
    TableLength = 1,
    TableMark = 2,
    TableRange = 3,
    StateLength = 4,
    StateMark = 5,
    StateRule = 6,
    NoSuchStep = 7,
    SomethingDue = 8,
    TimerNotDue = 9,
    NotHearing = 10,
    PastCeiling = 11,
    ShortRoom = 12,
    OwnFrame = 13,
    HoldRange = 15,
    BeforeLastBreak = 16,
    NotActive = 17,
    NoFreePlace = 18,
    NoSuchEntry = 19,
    NoNumberLeft = 20,
    BookRule = 25,
}
