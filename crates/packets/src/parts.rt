// What packets are made of.

/// The bytes of the shortest block, which are those of the shortest packet.
pub const LEAST_BLOCK: usize = 7;

/// The bytes of the longest block.
pub const MOST_BLOCK: usize = 1440;

// its bits
pub(crate) const MOST_BITS: usize = 8 * MOST_BLOCK;

/// What a header says beside the length.
#[derive(Clone, Copy, PartialEq, Eq, Debug)]
pub struct Header {
    /// Changes from one message to the next.
    pub toggle: bool,
    /// Marks the last packet of a message.
    pub last: bool,
    /// Numbers the packets of a message from 0.
    pub id: u16,
}

/// A packet, read from a block that holds its data.
#[derive(Clone, Copy)]
pub struct Packet<'a> {
    pub header: Header,
    pub data: &'a [u8],
}

/// A packet that does not fit its block.
#[derive(Clone, Copy, PartialEq, Eq, Debug)]
pub struct NoRoom;

/// A block that holds no packet.
#[derive(Clone, Copy, PartialEq, Eq, Debug)]
pub struct BadPacket;
