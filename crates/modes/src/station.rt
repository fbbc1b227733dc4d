// What the TIS states. The types carry the bounds of their fields.
ghost use Rattle.std.specs.Prelude.{◌≡◌, ◌<◌, ◌≤◌, MatchOption};
ghost use Rattle.modes.specs.Station.{Allowed};

// The station's number, the time of its transmission, and how many minutes that lasts.
#[derive(Clone, Copy, PartialEq, Eq, Debug)]
pub struct Station {
    number: u32,
    hour: u32,
    minute: u32,
    duration: u32,
    ghost allowed: { Allowed number hour minute duration },
}

impl Station {
    // The station record of these numbers, where each is within its bound.
    pub fn new(station: u32, hour: u32, minute: u32, duration: u32) -> Option<Self>
        ensures { MatchOption result (Allowed station hour minute duration → ⊥) (λ s. (s.number ≡ station) × (s.hour ≡ hour) × (s.minute ≡ minute) × (s.duration ≡ duration)) }
    {
        if station <= 1_073_741_823 && hour <= 23 && minute <= 59 && duration <= 59 {
            Some(Station {
                number: station,
                hour,
                minute,
                duration,
            })
        } else {
            None
        }
    }

    pub fn station(self) -> u32
        ensures { result ≡ self.number }
    {
        self.number
    }

    pub fn hour(self) -> u32
        ensures { result ≡ self.hour }
    {
        self.hour
    }

    pub fn minute(self) -> u32
        ensures { result ≡ self.minute }
    {
        self.minute
    }

    pub fn duration(self) -> u32
        ensures { result ≡ self.duration }
    {
        self.duration
    }
}

// What the TIS states: the coding of the data stream, a number of five bits, and the station.
#[derive(Clone, Copy, PartialEq, Eq, Debug)]
pub struct Tis {
    pub coding: u8,
    pub station: Station,
    ghost below: { coding < 32 },
}

impl Tis {
    // What a TIS with this coding and station states, where the coding has five bits.
    pub fn new(coding: u8, station: Station) -> Option<Self>
        ensures { MatchOption result (32 ≤ coding) (λ t. (t.coding ≡ coding) × (t.station ≡ station)) }
    {
        if coding < 32 {
            Some(Tis { coding, station })
        } else {
            None
        }
    }
}
