// Writing a packet into a block.
ghost use Rattle.std.specs.Prelude.{◌≡◌, ◌+◌, ◌*◌, ◌≤◌, length};
ghost use Rattle.bits.specs.Bits.{AllBelow};
ghost use Rattle.packets.specs.Packets.{carried, has_room, header_bits, packet_bits, Written};

use crate::parts::{LEAST_BLOCK, MOST_BITS, MOST_BLOCK, NoRoom, Packet};
use bits::{crc16, cut, spread, write_number};

// Whether the packet fits a block of `size` bytes.
fn has_room(packet: Packet<'_>, size: usize) -> bool
    ensures { result ≡ has_room size packet.entry.header.id (length packet.entry.«data».now) }
{
    let count = packet.data.len();
    (LEAST_BLOCK..=MOST_BLOCK).contains(&size)
        && packet.header.id < 1024
        && (1..=size - 6).contains(&count)
}

// The length of the packet that has these data: 4 bytes of the header before them and 2 of the check behind. That the
// data are bytes is known of a slice, and not of a slice in a struct.
fn total_length(data: &[u8]) -> usize
    ensures value { result ≡ length «data».now + 6 }
    ensures octets { AllBelow 256 «data».now }
{
    data.len() + 6
}

// Writes the 32 bits of the header.
fn write_header(packet: Packet<'_>, bits: &mut [bool])
    requires few { length packet.«data».now ≤ 1434 }
    requires size { length bits.old ≡ 32 }
    ensures { bits.new ≡ header_bits (carried packet.entry) }
{
    let Packet { header, data } = packet;
    let (length, rest) = bits.split_at_mut(12);
    let (flags, rest) = rest.split_at_mut(3);
    let (id, zeros) = rest.split_at_mut(10);
    write_number(total_length(data) as u32, length);
    flags.copy_from_slice(&[header.toggle, header.id == 0, header.last]);
    write_number(u32::from(header.id), id);
    // the fill indicator and the reserved bits
    write_number(0, zeros);
}

// Writes the bits of the packet: header and data, and behind them their check.
fn write_bits(packet: Packet<'_>, bits: &mut [bool])
    requires few { length packet.«data».now ≤ 1434 }
    requires size { length bits.old ≡ 8 * (length packet.«data».now + 6) }
    ensures { bits.new ≡ packet_bits (carried packet.entry) }
{
    let (covered, tail) = bits.split_at_mut(32 + 8 * packet.data.len());
    let (header, data) = covered.split_at_mut(32);
    write_header(packet, header);
    spread::<8>(packet.data, data);
    let check = crc16(covered);
    write_number(u32::from(check), tail);
}

/// Fills a block with the packet, or leaves it as it was.
pub fn write_packet(packet: Packet<'_>, block: &mut [u8]) -> Result<(), NoRoom>
    ensures { Written (carried packet.entry) block.old block.new result }
{
    if !has_room(packet, block.len()) {
        return Err(NoRoom);
    }
    let total = total_length(packet.data);
    let mut store = [false; MOST_BITS];
    let bits = &mut store[0..8 * total];
    write_bits(packet, bits);
    let (front, filler) = block.split_at_mut(total);
    cut::<8>(bits, front);
    filler.fill(0);
    Ok(())
}
