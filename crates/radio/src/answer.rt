// What take answers of a frame.
use frames::Mended;
use lineup::mode::Mode;
use messages::Placing;
use modes::Station;

#[derive(Clone, Copy, PartialEq, Eq, Debug)]
pub struct Taken {
    // what became of the piece
    pub placing: Placing,
    pub mode: Mode,
    pub station: Station,
    pub mended: Mended,
}
