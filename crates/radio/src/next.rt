// The block of the packet that a sender sends next.
ghost use Rattle.std.specs.Prelude.{◌≡◌, ◌-◌, ◌<◌, ◌≤◌, length};
ghost use Rattle.messages.specs.Pieces.{piece_length_of};
ghost use Rattle.messages.specs.Views.{sender_state};
ghost use Rattle.packets.specs.Packets.{Fits, block_of, content_of};
ghost use Rattle.radio.specs.NextBlock.{WritesNext};

use messages::Sender;
use packets::{Header, MOST_BLOCK, Packet, write_packet};
use refusals::Refusal;

// The bytes of a packet beside its data.
pub(crate) const AROUND_DATA: usize = 6;

// The most data of a packet.
const MOST_DATA: usize = MOST_BLOCK - AROUND_DATA;

// Fills a block that has room with a packet.
fn fill(header: Header, data: &[u8], block: &mut [u8])
    requires least { 7 ≤ length block.old }
    requires most { length block.old ≤ 1440 }
    requires numbered { header.id < 1024 }
    requires some { 1 ≤ length «data».now }
    requires within { length «data».now ≤ length block.old - 6 }
    ensures fits { Fits (length block.old) (content_of header «data».now) }
    ensures block { block.new ≡ block_of (length block.old) (content_of header «data».now) }
{
    // there is room, so this does not fail
    let _ = write_packet(Packet { header, data }, block);
}

// Fills the block with the next packet.
pub(crate) fn write_next(sender: &mut Sender, block: &mut [u8]) -> Result<(), Refusal>
    requires least { 7 ≤ length block.old }
    requires most { length block.old ≤ 1440 }
    requires cut { (sender_state sender.old).piece_length ≡ piece_length_of (length block.old - 6) }
    ensures { WritesNext (sender_state sender.old) (sender_state sender.new) block.old block.new result }
{
    let mut data = [0; MOST_DATA];
    let next = sender.next(&mut data)?;
    fill(next.header, &data[..next.length], block);
    Ok(())
}
