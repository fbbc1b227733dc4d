// The mode of a frame: what it occupies, and the constellations of two of its streams.
ghost use Rattle.modes.specs.Modes.{data_number, data_of, occupancy_number, occupancy_of, tis_count, tis_number, tis_of};
ghost use Rattle.std.specs.Prelude.{◌≡◌};

use crate::unknown::UnknownNumber;

// The bandwidth that a frame occupies.
#[derive(Clone, Copy, PartialEq, Eq, Debug)]
pub enum Occupancy {
    Khz1,
    Khz3,
    Khz5,
    Khz10,
}

// The constellation of the TIS stream.
#[derive(Clone, Copy, PartialEq, Eq, Debug)]
pub enum TisConstellation {
    Qam4,
    Qam16,
}

// The constellation of the data stream.
#[derive(Clone, Copy, PartialEq, Eq, Debug)]
pub enum DataConstellation {
    Qam4,
    Qam16,
    Qam64,
}

// What the MIS states.
#[derive(Clone, Copy, PartialEq, Eq, Debug)]
pub struct Mis {
    pub occupancy: Occupancy,
    pub tis: TisConstellation,
    pub data: DataConstellation,
}

// The number of an occupancy.
impl From<Occupancy> for u8 {
    ghost from_gives = { λ x n. n ≡ occupancy_number x };

    fn from(occupancy: Occupancy) -> u8 {
        occupancy as u8
    }
}

impl TryFrom<u32> for Occupancy {
    type Error = UnknownNumber;

    ghost try_from_gives = { λ n r. r ≡ occupancy_of n };

    fn try_from(number: u32) -> Result<Self, UnknownNumber> {
        match number {
            0 => Ok(Occupancy::Khz1),
            1 => Ok(Occupancy::Khz3),
            2 => Ok(Occupancy::Khz5),
            3 => Ok(Occupancy::Khz10),
            _ => Err(UnknownNumber),
        }
    }
}

impl TisConstellation {
    // How many cells the TIS takes.
    pub fn cell_count(self) -> usize
        ensures { result ≡ tis_count self }
    {
        match self {
            TisConstellation::Qam4 => 102,
            TisConstellation::Qam16 => 51,
        }
    }
}

// The number of a constellation of the TIS stream.
impl From<TisConstellation> for u8 {
    ghost from_gives = { λ x n. n ≡ tis_number x };

    fn from(tis: TisConstellation) -> u8 {
        tis as u8
    }
}

impl TryFrom<u32> for TisConstellation {
    type Error = UnknownNumber;

    ghost try_from_gives = { λ n r. r ≡ tis_of n };

    fn try_from(number: u32) -> Result<Self, UnknownNumber> {
        match number {
            0 => Ok(TisConstellation::Qam4),
            1 => Ok(TisConstellation::Qam16),
            _ => Err(UnknownNumber),
        }
    }
}

// The number of a constellation of the data stream.
impl From<DataConstellation> for u8 {
    ghost from_gives = { λ x n. n ≡ data_number x };

    fn from(data: DataConstellation) -> u8 {
        data as u8
    }
}

impl TryFrom<u32> for DataConstellation {
    type Error = UnknownNumber;

    ghost try_from_gives = { λ n r. r ≡ data_of n };

    fn try_from(number: u32) -> Result<Self, UnknownNumber> {
        match number {
            0 => Ok(DataConstellation::Qam4),
            1 => Ok(DataConstellation::Qam16),
            2 => Ok(DataConstellation::Qam64),
            _ => Err(UnknownNumber),
        }
    }
}
