// Why a call is refused: the lines of rule 3.2. Every call answers `Ok`, or the first check that fails.
#![tactic(auto)]

ghost use Rattle.std.specs.Prelude.{◌≡◌, Some};
ghost use Rattle.refusal.specs.Refusal.{number_of, answer_of, words_of};

use std::error::Error;
use std::fmt;

// A failed check, by its number.
#[derive(Clone, Copy, Debug, PartialEq, Eq, PartialOrd, Ord, Hash)]
pub enum Refusal {
    Shift = 1,
    NoPixels = 2,
    TooManyPixels = 3,
    ImageLength = 4,
    BufferLength = 5,
    PictureLength = 6,
    SumTooLarge = 7,
    NoSlot = 8,
    NoAverage = 9,
    BadList = 10,
    NoRow = 11,
    LargeNumber = 12,
    DestinationLength = 13,
}

impl Refusal {
    // The number of the check.
    pub fn number(self) -> u32
        ensures { result ≡ number_of self }
    {
        self as u32
    }
}

impl fmt::Display for Refusal {
    ghost output = { λ refusal. Some (words_of refusal) };

    // The words of the check.
    fn fmt<W: fmt::Write>(&self, f: &mut fmt::Formatter<W>) -> fmt::Result {
        f.write_str(match self {
            Refusal::Shift => "the shift is outside 0 to 7",
            Refusal::NoPixels => "the image has no pixels",
            Refusal::TooManyPixels => "the image has more than 65,000 pixels",
            Refusal::ImageLength => "the image has not four bytes for each pixel",
            Refusal::BufferLength => "a buffer is too short, or a count too large",
            Refusal::PictureLength => "the picture has not four bytes for each pixel",
            Refusal::SumTooLarge => "a number of the sum would pass 4,294,967,295",
            Refusal::NoSlot => "an output names no slot",
            Refusal::NoAverage => "the residue of an output has no average",
            Refusal::BadList => "the list of an output leads off the image",
            Refusal::NoRow => "the picture has no such row",
            Refusal::LargeNumber => "a number to be stored exceeds 65,535",
            Refusal::DestinationLength => "the destination has not the length of the sheet",
        })
    }
}

impl Error for Refusal {}

// The number that a call answers in C: 0 where it is accepted.
pub fn answer_of<T: Copy>(answer: &Result<T, Refusal>) -> u32
    ensures { result ≡ answer_of answer.now }
{
    match answer {
        Ok(_) => 0,
        Err(refusal) => refusal.number(),
    }
}
