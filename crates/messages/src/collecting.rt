// The message that is collected.
ghost use Rattle.std.specs.Prelude.{◌≡◌, vec_len};

use crate::content::Placing;
use crate::piece_length::PieceLength;
use crate::pieces::Pieces;
use crate::states::Phase;
use packets::Packet;
use refusals::Refusal;
use std::alloc::{AllocError, Global};

#[derive(Drop)]
pub struct Collector {
    piece_length: PieceLength,
    phase: Phase,
    // of the message that is collected
    toggle: bool,
    pieces: Pieces,
    // each piece stands where it begins in the message
    bytes: Vec<u8>,
    ghost room: { vec_len bytes ≡ 16384 },
}

impl Collector {
    ghost use Rattle.std.specs.Prelude.{◌≡◌, ◌+◌, ◌*◌, ◌<◌, ◌≤◌, length, IfOk, if◌then◌else◌};
    ghost use Rattle.packets.specs.Packets.{carried};
    ghost use Rattle.messages.specs.CollectorCalls.{new_collector, completes, begun, placed, written, Placing-in, Taking, Fetching};
    ghost use Rattle.messages.specs.declared.content.Placing.TheVariants.{Placed, Complete};
    ghost use Rattle.messages.specs.Views.{collector_state};

    // A collector of packets with `piece_length` bytes of data, 1 to 1434.
    pub fn new(heap: Global, piece_length: usize) -> Result<Self, AllocError>
        ensures { IfOk result (λ c. collector_state c ≡ new_collector piece_length) }
    {
        Ok(Collector {
            piece_length: PieceLength::clamped(piece_length),
            phase: Phase::Empty,
            toggle: false,
            pieces: Pieces::none(),
            bytes: vec![in heap; 0; 16384]?,
        })
    }

    // Puts the packet's data in its place, and says whether it was the last outstanding piece.
    fn put(&mut self, packet: Packet<'_>) -> Placing
        requires id { packet.header.id < 1024 }
        requires room { packet.header.id * self.old.piece_length.bytes + length packet.«data».now ≤ 16384 }
        ensures answer { result ≡ (if completes (collector_state self.old) (carried packet.entry) then Complete else Placed) }
        ensures state { collector_state self.new ≡ placed (collector_state self.old) (carried packet.entry) }
    {
        let Packet { header, data } = packet;
        let start = self.piece_length.start(header.id);
        let end = start + data.len();
        self.bytes[start..end].copy_from_slice(data);
        self.pieces.add(header, end);
        if self.pieces.none_missing() {
            self.phase = Phase::Complete;
            Placing::Complete
        } else {
            self.phase = Phase::Collecting;
            Placing::Placed
        }
    }

    // A packet of the message that is collected, with a piece that is not there.
    fn place(&mut self, packet: Packet<'_>) -> Result<Placing, Refusal>
        ensures { Placing-in (collector_state self.old) (collector_state self.old) (collector_state self.new) (carried packet.entry) result }
    {
        if self.pieces.misplaced(self.piece_length, packet) {
            return Err(Refusal::Misplaced);
        }
        Ok(self.put(packet))
    }

    // The first packet of a new message.
    fn begin(&mut self, packet: Packet<'_>) -> Result<Placing, Refusal>
        ensures { Placing-in (begun (collector_state self.old) packet.entry.header.toggle) (collector_state self.old) (collector_state self.new) (carried packet.entry) result }
    {
        let pieces = Pieces::none();
        if pieces.misplaced(self.piece_length, packet) {
            return Err(Refusal::Misplaced);
        }
        self.phase = Phase::Collecting;
        self.toggle = packet.header.toggle;
        self.pieces = pieces;
        Ok(self.put(packet))
    }

    // Takes a packet. Data that no packet of a block brings, as none at all, and ids from 1024 on are misplaced too.
    pub fn take(&mut self, packet: Packet<'_>) -> Result<Placing, Refusal>
        ensures { Taking (collector_state self.old) (collector_state self.new) (carried packet.entry) result }
    {
        let there = self.pieces.has(packet.header.id);
        match (self.phase, packet.header.toggle == self.toggle, there) {
            (Phase::Complete, true, _) => Ok(Placing::Repeat),
            (Phase::Collecting, true, true) => Ok(Placing::Had),
            (Phase::Collecting, true, false) => self.place(packet),
            (Phase::Empty, _, _) | (_, false, _) => self.begin(packet),
        }
    }

    // Copies the message to the front of `bytes` and answers its length.
    pub fn fetch(&self, bytes: &mut [u8]) -> Result<usize, Refusal>
        ensures { Fetching (collector_state self.now) bytes.old bytes.new result }
    {
        let Phase::Complete = self.phase else {
            return Err(Refusal::NothingComplete);
        };
        let total = self.pieces.total();
        if bytes.len() < total {
            return Err(Refusal::FewBytes);
        }
        bytes[..total].copy_from_slice(&self.bytes[..total]);
        Ok(total)
    }
}
