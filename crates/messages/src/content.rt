// What the sender and the collector answer.
ghost use Rattle.std.specs.Prelude.{◌≡◌};
ghost use Rattle.messages.specs.Answers.{placing_name};

use packets::Header;

// What next answers: a packet's header, and how many bytes of data it wrote.
#[derive(Clone, Copy, PartialEq, Eq, Debug)]
pub struct NextPacket {
    pub header: Header,
    pub length: usize,
}

// What take answers of a packet.
#[derive(Clone, Copy, PartialEq, Eq, Debug)]
pub enum Placing {
    // a piece that was outstanding, and others still are
    Placed,
    // the last outstanding piece
    Complete,
    // the piece was there
    Had,
    // the message was complete
    Repeat,
}

impl Placing {
    // The name that the answer is known by.
    pub fn name(self) -> &'static str
        ensures { result.now ≡ placing_name self }
    {
        match self {
            Placing::Placed => "placed",
            Placing::Complete => "complete",
            Placing::Had => "had",
            Placing::Repeat => "repeat",
        }
    }
}
