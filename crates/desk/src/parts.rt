// Parts of a mode and a station, by the numbers that a script has for them.
ghost use Rattle.std.specs.Prelude.{◌≡◌};
ghost use Rattle.desk.specs.Changes.{Makes};
ghost use Rattle.modes.specs.Modes.{tis_of};
ghost use Rattle.desk.specs.Parts.{Names, mode_of, part_of, station_asked, station_numbers, tis_asked, tis_numbers};

use crate::numbers::unsigned;
use crate::trouble::Trouble;
use modes::{Mis, Station, Tis, TisConstellation, UnknownNumber, data_coding};

// The part of a mode that a word names by its number.
fn part<T: TryFrom<u32, Error = UnknownNumber>>(word: &str) -> Result<T, Trouble>
    ensures { Names T.try_from_gives word.now result }
{
    Ok(T::try_from(unsigned(word)?)?)
}

// The constellation of a TIS, by its number.
pub fn tis_constellation(word: &str) -> Result<TisConstellation, Trouble>
    ensures { result ≡ part_of tis_of word.now }
{
    part(word)
}

// The mode that a MIS states, by its three numbers.
pub fn mode(o: &str, t: &str, d: &str) -> Result<Mis, Trouble>
    ensures { result ≡ mode_of o.now t.now d.now }
{
    Ok(Mis {
        occupancy: part(o)?,
        tis: part(t)?,
        data: part(d)?,
    })
}

// A station record, by station, hour, minute and duration.
pub fn station(s: &str, h: &str, m: &str, d: &str) -> Result<Station, Trouble>
    ensures { Makes (station_asked s.now h.now m.now d.now) station_numbers result }
{
    Station::new(unsigned(s)?, unsigned(h)?, unsigned(m)?, unsigned(d)?).ok_or(Trouble::OutOfRange)
}

// What a TIS states, by occupancy, data constellation and rate, and by station, hour, minute and duration.
pub fn tis(o: &str, d: &str, r: &str, s: &str, h: &str, m: &str, u: &str) -> Result<Tis, Trouble>
    ensures { Makes (tis_asked o.now d.now r.now s.now h.now m.now u.now) tis_numbers result }
{
    let coding = data_coding(part(o)?, part(d)?, part(r)?);
    Tis::new(coding, station(s, h, m, u)?).ok_or(Trouble::OutOfRange)
}
