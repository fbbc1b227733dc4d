// Reading a packet from a block.
ghost use Rattle.std.specs.Prelude.{◌≡◌, ◌*◌, ◌≤◌, length};
ghost use Rattle.std.specs.Bool.{OnFalse};
ghost use Rattle.packets.specs.Packets.{answered, bad_block, fields_in, packet_in, Reads, wrong_check, wrong_filler, wrong_first, wrong_length, wrong_reserved, wrong_size};
ghost use Rattle.bits.specs.Bits.{spread};

use crate::parts::{BadPacket, Header, LEAST_BLOCK, MOST_BITS, MOST_BLOCK, Packet};
use bits::{crc16, read_number, spread};

// What the header of a block says, right or wrong.
#[derive(Clone, Copy)]
struct Fields {
    // the length of the packet
    total: usize,
    header: Header,
    first: bool,
    // the fill indicator
    indicator: bool,
    reserved: u32,
}

impl Fields {
    #[tactic(auto, unfolding(crate::specs::Packets::fields_in))]
    fn of(bits: &[bool]) -> Self
        requires { 32 ≤ length bits.now }
        ensures { result ≡ fields_in bits.now }
    {
        Fields {
            total: read_number(&bits[0..12]) as usize,
            header: Header {
                toggle: bits[12],
                last: bits[14],
                id: read_number(&bits[15..25]) as u16,
            },
            first: bits[13],
            indicator: bits[25],
            reserved: read_number(&bits[26..32]),
        }
    }

    fn wrong_length(self, size: usize) -> bool
        ensures { result ≡ wrong_length self size }
    {
        self.total < LEAST_BLOCK || size < self.total
    }

    fn wrong_check(self, bits: &[bool]) -> bool
        requires least { 7 ≤ self.total }
        requires within { 8 * self.total ≤ length bits.now }
        ensures { result ≡ wrong_check self bits.now }
    {
        let end = 8 * (self.total - 2);
        read_number(&bits[end..end + 16]) != u32::from(crc16(&bits[0..end]))
    }

    fn wrong_reserved(self) -> bool
        ensures { result ≡ wrong_reserved self }
    {
        self.indicator || self.reserved != 0
    }

    fn wrong_first(self) -> bool
        ensures { result ≡ wrong_first self }
    {
        self.first ^ (self.header.id == 0)
    }

    fn wrong_filler(self, block: &[u8]) -> bool
        ensures { result ≡ wrong_filler self block.now }
    {
        !block.iter().skip(self.total).all(|byte| *byte == 0)
    }

    // Whether no sender makes a block with these fields and bits.
    #[tactic(auto, unfolding(crate::specs::Packets::bad_block))]
    fn is_bad(self, block: &[u8], bits: &[bool]) -> bool
        requires { length bits.now ≡ 8 * length block.now }
        ensures value { result ≡ bad_block self block.now bits.now }
        ensures within { OnFalse result ((7 ≤ self.total) × (self.total ≤ length block.now)) }
    {
        self.wrong_length(block.len())
            || self.wrong_check(bits)
            || self.wrong_reserved()
            || self.wrong_first()
            || self.wrong_filler(block)
    }
}

// Whether no block has so many bytes.
fn wrong_size(size: usize) -> bool
    ensures { result ≡ wrong_size size }
{
    !(LEAST_BLOCK..=MOST_BLOCK).contains(&size)
}

/// The packet that a block holds.
pub fn read_packet(block: &[u8]) -> Result<Packet<'_>, BadPacket>
    ensures value { answered result ≡ packet_in block.now }
    ensures exactly { Reads block.now (answered result) }
{
    if wrong_size(block.len()) {
        return Err(BadPacket);
    }
    let mut store = [false; MOST_BITS];
    let bits = &mut store[0..8 * block.len()];
    spread::<8>(block, bits);
    let fields = Fields::of(bits);
    if fields.is_bad(block, bits) {
        return Err(BadPacket);
    }
    Ok(Packet {
        header: fields.header,
        data: &block[4..fields.total - 2],
    })
}
