// The mode of a line-up.
ghost use Rattle.std.specs.Prelude.{◌≡◌, ◌<◌};
ghost use Rattle.lineup.specs.Stated.{coding_of, coding_below, stated_mis, stated_tis};

use modes::{DataConstellation, Mis, Occupancy, Rate, Station, Tis, TisConstellation, data_coding};

// What the frame occupies, the constellations of its streams, and the rate of the data code.
#[derive(Clone, Copy, PartialEq, Eq, Debug)]
pub struct Mode {
    pub occupancy: Occupancy,
    pub tis: TisConstellation,
    pub data: DataConstellation,
    pub rate: Rate,
}

impl Mode {
    // What the MIS of a frame states.
    pub fn mis(self) -> Mis
        ensures { result ≡ stated_mis self }
    {
        Mis {
            occupancy: self.occupancy,
            tis: self.tis,
            data: self.data,
        }
    }

    // The data coding that the TIS of a frame states.
    pub fn coding(self) -> u8
        ensures { result ≡ coding_of self }
    {
        data_coding(self.occupancy, self.data, self.rate)
    }

    // What the TIS of a frame states beside a station.
    pub fn tis(self, station: Station) -> Tis
        ensures { result ≡ stated_tis self station }
    {
        Tis {
            coding: self.coding(),
            station,
        }
    }
}
