// The sender's progress through its message.
ghost use Rattle.std.specs.Prelude.{◌≤◌, length, vec_capacity};
ghost use Rattle.messages.specs.Pieces.{piece_count};
ghost use Rattle.messages.specs.SenderCalls.{reached};

use crate::content::NextPacket;
use crate::piece_length::PieceLength;
use crate::states::Progress;
use packets::Header;
use refusals::Refusal;
use std::alloc::{AllocError, Global};

#[derive(Drop)]
pub struct Sender {
    message: Vec<u8>,
    piece_length: PieceLength,
    // of the message sent last
    toggle: bool,
    progress: Progress,
    ghost room: { 16384 ≤ vec_capacity message },
    ghost fits: { length message.items ≤ 16384 },
    ghost few: { piece_count piece_length.bytes (length message.items) ≤ 1024 },
    ghost sound: { reached progress ≤ piece_count piece_length.bytes (length message.items) },
}

impl Sender {
    ghost use Rattle.std.specs.Prelude.{◌≡◌, ◌<◌, IfOk};
    ghost use Rattle.messages.specs.SenderCalls.{new_sender, is_loaded, Loading, Nexting, Clearing};
    ghost use Rattle.messages.specs.Views.{sender_state};

    // A sender of packets with `piece_length` bytes of data, 1 to 1434.
    pub fn new(heap: Global, piece_length: usize) -> Result<Self, AllocError>
        ensures { IfOk result (λ s. sender_state s ≡ new_sender piece_length) }
    {
        Ok(Sender {
            message: Vec::with_capacity(heap, 16384)?,
            piece_length: PieceLength::clamped(piece_length),
            toggle: true,
            progress: Progress::Idle,
        })
    }

    pub fn load(&mut self, message: &[u8]) -> Result<(), Refusal>
        ensures { Loading (sender_state self.old) (sender_state self.new) message.now result }
    {
        let Progress::Idle = self.progress else {
            return Err(Refusal::MessageLoaded);
        };
        if message.is_empty() || message.len() > 16384 {
            return Err(Refusal::MessageLength);
        }
        if self.piece_length.count(message.len()) > 1024 {
            return Err(Refusal::TooManyPieces);
        }
        self.message.clear();
        // there is room, so this does not fail
        let _ = self.message.extend_from_slice(message);
        self.progress = Progress::Waiting;
        Ok(())
    }

    // Whether a message is loaded.
    pub fn is_loaded(&self) -> bool
        ensures { result ≡ is_loaded self.now.progress }
    {
        !matches!(self.progress, Progress::Idle)
    }

    // The next packet: its data goes to the front of `bytes`.
    pub fn next(&mut self, bytes: &mut [u8; 1434]) -> Result<NextPacket, Refusal>
        ensures packet { Nexting (sender_state self.old) (sender_state self.new) bytes.old bytes.new result }
        ensures fits { IfOk result (λ r. (r.header.id < 1024) × (1 ≤ r.length) × (r.length ≤ self.old.piece_length.bytes)) }
    {
        let id = self.progress.piece().ok_or(Refusal::NothingLoaded)?;
        let count = self.piece_length.count(self.message.len());
        let length = self
            .piece_length
            .write_piece(self.message.as_slice(), id, bytes);
        let following = usize::from(id) + 1;
        self.toggle = self.progress.toggled(self.toggle);
        self.progress = Progress::Sending((following % count) as u16);
        let header = Header {
            toggle: self.toggle,
            last: following == count,
            id,
        };
        Ok(NextPacket { header, length })
    }

    pub fn clear(&mut self) -> Result<(), Refusal>
        ensures { Clearing (sender_state self.old) (sender_state self.new) result }
    {
        if let Progress::Idle = self.progress {
            return Err(Refusal::NothingLoaded);
        }
        self.message.clear();
        self.progress = Progress::Idle;
        Ok(())
    }
}
