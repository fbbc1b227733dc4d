// What is printed of a mode, of a station, of a TIS, of a refusal and of a call that answers nothing.
use modes::{Mis, Station, Tis};
use refusals::Refusal;
use std::fmt;

// The three numbers of a mode that a MIS states.
#[derive(Clone, Copy)]
pub struct ModeNumbers(pub Mis);

impl fmt::Display for ModeNumbers {
    ghost use Rattle.std.specs.Prelude.{Some};
    ghost use Rattle.desk.specs.Shown.{mode_text};

    ghost output = { λ m. Some (mode_text m.0) };

    fn fmt<W: fmt::Write>(&self, f: &mut fmt::Formatter<W>) -> fmt::Result {
        let occupancy = u8::from(self.0.occupancy);
        let tis = u8::from(self.0.tis);
        let data = u8::from(self.0.data);
        write!(f, "{occupancy} {tis} {data}")
    }
}

// Station, hour, minute and duration.
#[derive(Clone, Copy)]
pub struct StationNumbers(pub Station);

impl fmt::Display for StationNumbers {
    ghost use Rattle.std.specs.Prelude.{Some};
    ghost use Rattle.desk.specs.Shown.{station_text};

    ghost output = { λ s. Some (station_text s.0) };

    fn fmt<W: fmt::Write>(&self, f: &mut fmt::Formatter<W>) -> fmt::Result {
        let number = self.0.station();
        let hour = self.0.hour();
        let minute = self.0.minute();
        let duration = self.0.duration();
        write!(f, "{number} {hour} {minute} {duration}")
    }
}

// The data coding of a TIS, and its station.
#[derive(Clone, Copy)]
pub struct TisNumbers(pub Tis);

impl fmt::Display for TisNumbers {
    ghost use Rattle.std.specs.Prelude.{Some};
    ghost use Rattle.desk.specs.Shown.{tis_text};

    ghost output = { λ t. Some (tis_text t.0) };

    fn fmt<W: fmt::Write>(&self, f: &mut fmt::Formatter<W>) -> fmt::Result {
        let Tis { coding, station } = self.0;
        write!(f, "coding {coding} station {}", StationNumbers(station))
    }
}

// A refusal's number, and what it hands back.
#[derive(Clone, Copy)]
pub struct Refused(pub Refusal);

impl fmt::Display for Refused {
    ghost use Rattle.std.specs.Prelude.{Some};
    ghost use Rattle.desk.specs.Shown.{refused_text};

    ghost output = { λ r. Some (refused_text r.0) };

    fn fmt<W: fmt::Write>(&self, f: &mut fmt::Formatter<W>) -> fmt::Result {
        let number = u8::from(self.0);
        match self.0 {
            Refusal::PlanByte(place) | Refusal::ExponentOutOfRange(place) => {
                write!(f, "refused {number} place {place}")
            }
            Refusal::OtherMode(o, t, d) => write!(f, "refused {number} names {o} {t} {d}"),
            Refusal::DataBeyondReach(word) => write!(f, "refused {number} word {word}"),
            _ => write!(f, "refused {number}"),
        }
    }
}

// That a call was done, or why it was refused.
#[derive(Clone, Copy)]
pub struct Answered(pub Result<(), Refusal>);

impl fmt::Display for Answered {
    ghost use Rattle.std.specs.Prelude.{Some};
    ghost use Rattle.desk.specs.Shown.{answered_text};

    ghost output = { λ a. Some (answered_text a.0) };

    fn fmt<W: fmt::Write>(&self, f: &mut fmt::Formatter<W>) -> fmt::Result {
        match self.0 {
            Ok(()) => write!(f, "done"),
            Err(refusal) => write!(f, "{}", Refused(refusal)),
        }
    }
}
