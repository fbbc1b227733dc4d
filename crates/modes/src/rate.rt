// The rate of the data stream's code, and the number that states how the data stream is coded.
ghost use Rattle.modes.specs.Modes.{data_coding, rate_number, rate_of};
ghost use Rattle.std.specs.Prelude.{◌≡◌};

use crate::mode::{DataConstellation, Occupancy};
use crate::unknown::UnknownNumber;

// The rate of the code of the data stream.
#[derive(Clone, Copy, PartialEq, Eq, Debug)]
pub enum Rate {
    Half,
    ThreeQuarters,
}

// The number of a rate.
impl From<Rate> for u8 {
    ghost from_gives = { λ x n. n ≡ rate_number x };

    fn from(rate: Rate) -> u8 {
        rate as u8
    }
}

impl TryFrom<u32> for Rate {
    type Error = UnknownNumber;

    ghost try_from_gives = { λ n r. r ≡ rate_of n };

    fn try_from(number: u32) -> Result<Self, UnknownNumber> {
        match number {
            0 => Ok(Rate::Half),
            1 => Ok(Rate::ThreeQuarters),
            _ => Err(UnknownNumber),
        }
    }
}

// The number of a coding of the data stream; it has five bits.
pub fn data_coding(occupancy: Occupancy, data: DataConstellation, rate: Rate) -> u8
    ensures { result ≡ data_coding occupancy «data» rate }
{
    u8::from(occupancy) * 8 + u8::from(data) * 2 + u8::from(rate)
}
