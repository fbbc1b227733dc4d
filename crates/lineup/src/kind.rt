// What a cell carries.
ghost use Rattle.std.specs.Prelude.{◌≡◌};
ghost use Rattle.lineup.specs.Kinds.{kind_number, kind_of};

use modes::UnknownNumber;

// Nothing, a fixed value, or a cell of a stream.
#[derive(Clone, Copy, PartialEq, Eq, Debug)]
pub enum CellKind {
    Empty,
    Plus,
    Minus,
    Mis,
    Tis,
    Data,
}

// The byte that stands for a kind in a plan.
impl From<CellKind> for u8 {
    ghost from_gives = { λ kind n. n ≡ kind_number kind };

    fn from(kind: CellKind) -> u8 {
        kind as u8
    }
}

impl TryFrom<u8> for CellKind {
    type Error = UnknownNumber;

    ghost try_from_gives = { λ n r. r ≡ kind_of n };

    fn try_from(byte: u8) -> Result<Self, UnknownNumber> {
        match byte {
            0 => Ok(CellKind::Empty),
            1 => Ok(CellKind::Plus),
            2 => Ok(CellKind::Minus),
            3 => Ok(CellKind::Mis),
            4 => Ok(CellKind::Tis),
            5 => Ok(CellKind::Data),
            _ => Err(UnknownNumber),
        }
    }
}
