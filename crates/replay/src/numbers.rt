// The numbers of the refusals, the program's own ones, so that it does not follow an error.
use refusal::{Refusal, answer_of};

// The number that a refusal has to have.
pub(crate) fn number(refusal: Refusal) -> u32 {
    match refusal {
        Refusal::Shift => 1,
        Refusal::NoPixels => 2,
        Refusal::TooManyPixels => 3,
        Refusal::ImageLength => 4,
        Refusal::BufferLength => 5,
        Refusal::PictureLength => 6,
        Refusal::SumTooLarge => 7,
        Refusal::NoSlot => 8,
        Refusal::NoAverage => 9,
        Refusal::BadList => 10,
        Refusal::NoRow => 11,
        Refusal::LargeNumber => 12,
        Refusal::DestinationLength => 13,
    }
}

// Whether a call answered what it has to, by name and by number.
pub(crate) fn is_answer(answer: Result<(), Refusal>, expected: Result<(), Refusal>) -> bool {
    (answer == expected) & (answer_of(&answer) == expected.err().map_or(0, number))
}
