// What words ask of a packet and of a block: `packet T L I C HEX`, and `block HEX`.
ghost use Rattle.std.specs.Prelude.{◌≡◌, vec_items};
ghost use Rattle.desk.specs.Blocks.{asked_parts, block_asked, flag_of, header_asked, packet_asked};
ghost use Rattle.desk.specs.Changes.{MayMake};
ghost use Rattle.desk.specs.Words.{texts};

use crate::digits::bytes_of;
use crate::numbers::natural;
use crate::trouble::Trouble;
use crate::words::exactly;
use packets::{Header, LEAST_BLOCK, MOST_BLOCK};
use std::alloc::Global;

// A packet's header and data, and the bytes of its block.
#[derive(Drop)]
pub struct PacketAsked {
    pub header: Header,
    pub size: usize,
    pub data: Vec<u8>,
}

// 0 or 1
fn flag(word: &str) -> Result<bool, Trouble>
    ensures { result ≡ flag_of word.now }
{
    Ok(natural(word, 1)? == 1)
}

// The header that words ask for.
fn header(toggle: &str, last: &str, id: &str) -> Result<Header, Trouble>
    ensures { result ≡ header_asked toggle.now last.now id.now }
{
    Ok(Header {
        toggle: flag(toggle)?,
        last: flag(last)?,
        id: natural(id, 1023)? as u16,
    })
}

// The packet that words ask for.
pub fn packet_asked(heap: Global, words: &[&str]) -> Result<PacketAsked, Trouble>
    ensures { MayMake (packet_asked (texts words.now)) asked_parts result }
{
    let [toggle, last, id, size, data] = exactly::<_, 5>(words)?;
    Ok(PacketAsked {
        header: header(toggle, last, id)?,
        size: natural(size, MOST_BLOCK as u32)? as usize,
        data: bytes_of(heap, data)?,
    })
}

// The bytes of a block.
pub fn block_asked(heap: Global, words: &[&str]) -> Result<Vec<u8>, Trouble>
    ensures { MayMake (block_asked (texts words.now)) vec_items result }
{
    let [block] = exactly::<_, 1>(words)?;
    let block = bytes_of(heap, block)?;
    if !(LEAST_BLOCK..=MOST_BLOCK).contains(&block.len()) {
        return Err(Trouble::OutOfRange);
    }
    Ok(block)
}
