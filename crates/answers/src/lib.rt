// What a call answers: a value, or the first refusal that applies. FORMAT, "Refusal numbers". Every crate above uses this.
#![tactic(auto)]

ghost use Rattle.std.specs.Prelude.{◌≡◌};
ghost use Rattle.answers.specs.Refused.{number_of, refusal_in};

// Why a call gives no value. The numbers are the customer's, and their order in a call is that of FORMAT.
#[derive(Clone, Copy, Debug, PartialEq, Eq, Hash)]
pub enum Refusal {
    TooShort = 1,
    WrongLength = 2,
    Not8Bits = 3,
    Compressed = 4,
    NoSuchRate = 5,
    NotTheRatesLength = 6,
    NumberZero = 7,
    NoSuchDate = 8,
    PastTheDay = 9,
    NoDigit = 10,
    WrongSync = 11,
    NoSuchSample = 12,
    WrongLimits = 13,
    TooFewCells = 14,
    OtherReel = 15,
    NumberOutside = 16,
    SecondOutside = 17,
    SecondFull = 18,
    NotHeld = 19,
    NoSuchSegment = 20,
    TextTooLong = 21,
    ValueTooWide = 22,
    SegmentNotNew = 23,
    InputTooLong = 24,
    NoSuchEdition = 25,
    NoSegments = 26,
    BadCheck = 27,
    WrongBlocks = 28,
}

// Its number, by which the customer's letters, listings and C know it.
impl From<Refusal> for u8 {
    ghost from_gives = { λ refusal n. n ≡ number_of refusal };

    fn from(refusal: Refusal) -> u8 {
        refusal as u8
    }
}

// The number of the refusal, 0 where nothing is refused.
pub fn refusal_number<T: Copy>(answer: Result<T, Refusal>) -> u8
    ensures { result ≡ refusal_in answer }
{
    match answer {
        Ok(_) => 0,
        Err(refusal) => u8::from(refusal),
    }
}
