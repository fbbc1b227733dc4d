// Why a call is refused: one list for the whole library.
#![tactic(auto)]

ghost use Rattle.std.specs.Prelude.{◌≡◌};
ghost use Rattle.refusals.specs.Refusals.{refusal_number};

// The cases stand in the order of their numbers, from 1.
#[derive(Clone, Copy, PartialEq, Eq, Debug)]
pub enum Refusal {
    ModeOutOfRange,
    PlanLength,
    // the place of a byte above 5
    PlanByte(usize),
    FewStreamCells,
    CodeShape,
    // the place of an exponent that is out of range
    ExponentOutOfRange(usize),
    BlockLength,
    FewDataCells,
    StationOutOfRange,
    EmptyLineUp,
    MessageLoaded,
    MessageLength,
    TooManyPieces,
    NothingLoaded,
    NoStation,
    SliceLength,
    MisBeyondReach,
    BadMis,
    // occupancy, TIS and data constellation that the MIS names
    OtherMode(u8, u8, u8),
    TisBeyondReach,
    BadTis,
    OtherDataCoding,
    // the data word
    DataBeyondReach(usize),
    BadPacket,
    Misplaced,
    NothingComplete,
    FewBytes,
}

// The number that a refusal is known by.
impl From<Refusal> for u8 {
    ghost from_gives = { λ refusal n. n ≡ refusal_number refusal };

    fn from(refusal: Refusal) -> u8 {
        match refusal {
            Refusal::ModeOutOfRange => 1,
            Refusal::PlanLength => 2,
            Refusal::PlanByte(_) => 3,
            Refusal::FewStreamCells => 4,
            Refusal::CodeShape => 5,
            Refusal::ExponentOutOfRange(_) => 6,
            Refusal::BlockLength => 7,
            Refusal::FewDataCells => 8,
            Refusal::StationOutOfRange => 9,
            Refusal::EmptyLineUp => 10,
            Refusal::MessageLoaded => 11,
            Refusal::MessageLength => 12,
            Refusal::TooManyPieces => 13,
            Refusal::NothingLoaded => 14,
            Refusal::NoStation => 15,
            Refusal::SliceLength => 16,
            Refusal::MisBeyondReach => 17,
            Refusal::BadMis => 18,
            Refusal::OtherMode(_, _, _) => 19,
            Refusal::TisBeyondReach => 20,
            Refusal::BadTis => 21,
            Refusal::OtherDataCoding => 22,
            Refusal::DataBeyondReach(_) => 23,
            Refusal::BadPacket => 24,
            Refusal::Misplaced => 25,
            Refusal::NothingComplete => 26,
            Refusal::FewBytes => 27,
        }
    }
}
