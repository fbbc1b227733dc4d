// Why a frame cannot be read: the stream, and its own fault.
ghost use Rattle.std.specs.Prelude.{◌≡◌};
ghost use Rattle.frames.specs.Faults.{refusal_of};
ghost use Rattle.frames.specs.declared.fault.FrameFault.TheVariants.{Data, Packet};

use modem::StreamFault;
use modes::Mis;
use packets::BadPacket;
use refusals::Refusal;

// The number of a data word that is beyond reach.
#[derive(Clone, Copy, PartialEq, Eq, Debug)]
pub struct LostWord {
    pub word: usize,
}

#[derive(Clone, Copy, PartialEq, Eq, Debug)]
pub enum FrameFault {
    Mis(StreamFault),
    // what the MIS states
    OtherMode(Mis),
    Tis(StreamFault),
    OtherDataCoding,
    Data(LostWord),
    Packet(BadPacket),
}

impl From<LostWord> for FrameFault {
    ghost from_gives = { λ e r. r ≡ Data e };

    fn from(e: LostWord) -> FrameFault {
        FrameFault::Data(e)
    }
}

impl From<BadPacket> for FrameFault {
    ghost from_gives = { λ e r. r ≡ Packet e };

    fn from(e: BadPacket) -> FrameFault {
        FrameFault::Packet(e)
    }
}

// The refusal that a fault is.
impl From<FrameFault> for Refusal {
    ghost from_gives = { λ fault refusal. refusal ≡ refusal_of fault };

    fn from(fault: FrameFault) -> Refusal {
        match fault {
            FrameFault::Mis(StreamFault::Reach(_)) => Refusal::MisBeyondReach,
            FrameFault::Mis(StreamFault::Record(_)) => Refusal::BadMis,
            FrameFault::OtherMode(mis) => Refusal::OtherMode(
                mis.occupancy.into(),
                mis.tis.into(),
                mis.data.into(),
            ),
            FrameFault::Tis(StreamFault::Reach(_)) => Refusal::TisBeyondReach,
            FrameFault::Tis(StreamFault::Record(_)) => Refusal::BadTis,
            FrameFault::OtherDataCoding => Refusal::OtherDataCoding,
            FrameFault::Data(lost) => Refusal::DataBeyondReach(lost.word),
            FrameFault::Packet(_) => Refusal::BadPacket,
        }
    }
}
