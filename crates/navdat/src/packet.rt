// `packet T L I C HEX` and `block HEX`: a packet's block, and the packet of a block.
use desk::blocks::{block_asked, packet_asked};
use desk::shown::Refused;
use desk::trouble::{Stop, Trouble};
use packets::{Header, Packet, read_packet, write_packet};
use refusals::Refusal;
use std::alloc::Global;
use std::io;

// The block that the words ask for.
fn block_of(heap: Global, words: &[&str]) -> Result<Vec<u8>, Trouble> {
    let asked = packet_asked(heap, words)?;
    let mut block = vec![in heap; 0u8; asked.size]?;
    let packet = Packet {
        header: asked.header,
        data: &asked.data,
    };
    write_packet(packet, &mut block)?;
    Ok(block)
}

pub(crate) fn run_packet(rt: &impl Print, heap: Global, words: &[&str]) -> Result<(), Stop> {
    let block = block_of(heap, words)?;
    println!(rt; "packet: {}", hex::encode(heap, block)?)?;
    Ok(())
}

fn print_content(rt: &impl Print, heap: Global, packet: Packet) -> io::Result<()> {
    let Header { toggle, last, id } = packet.header;
    println!(rt;
        "block: length {} toggle {} first {} last {} id {id} data {}",
        packet.data.len().saturating_add(6),
        u8::from(toggle),
        u8::from(id == 0),
        u8::from(last),
        hex::encode(heap, packet.data)?
    )
}

pub(crate) fn run_block(rt: &impl Print, heap: Global, words: &[&str]) -> Result<(), Stop> {
    let block = block_asked(heap, words)?;
    match read_packet(&block) {
        Ok(packet) => print_content(rt, heap, packet)?,
        Err(_) => println!(rt; "block: {}", Refused(Refusal::BadPacket))?,
    }
    Ok(())
}
