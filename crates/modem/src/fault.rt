// Why a stream cannot be read.
ghost use Rattle.std.specs.Prelude.{◌≡◌};
ghost use Rattle.modem.specs.declared.fault.StreamFault.TheVariants.{Reach, Record};

use codes::words::BeyondReach;
use streams::BadRecord;

#[derive(Clone, Copy, PartialEq, Eq, Debug)]
pub enum StreamFault {
    Reach(BeyondReach),
    Record(BadRecord),
}

impl From<BeyondReach> for StreamFault {
    ghost from_gives = { λ e r. r ≡ Reach e };

    fn from(e: BeyondReach) -> StreamFault {
        StreamFault::Reach(e)
    }
}

impl From<BadRecord> for StreamFault {
    ghost from_gives = { λ e r. r ≡ Record e };

    fn from(e: BadRecord) -> StreamFault {
        StreamFault::Record(e)
    }
}
