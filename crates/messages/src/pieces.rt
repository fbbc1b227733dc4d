// Which pieces of a message are there.
ghost use Rattle.std.specs.Prelude.{◌<◌, ◌≤◌};

use crate::piece_length::PieceLength;
use packets::{Header, Packet};

// How a message ends.
#[derive(Clone, Copy)]
pub(crate) struct Ending {
    // of its last piece
    id: u16,
    // the message's length
    total: usize,
    ghost numbered: { id < 1024 },
    ghost fits: { total ≤ 16384 },
}

#[derive(Clone, Copy)]
pub(crate) struct Pieces {
    // by id
    there: [bool; 1024],
    // once the last piece is known
    ending: Option<Ending>,
}

impl Pieces {
    ghost use Rattle.std.specs.Prelude.{◌≡◌, ◌+◌, ◌*◌, false, true, None, Some, length, slice_index_or, slice_set, if◌then◌else◌};
    ghost use Rattle.packets.specs.Packets.{carried};
    ghost use Rattle.messages.specs.CollectorCalls.{none_there, none_missing, misplaced};
    ghost use Rattle.messages.specs.Endings.{last_of, total_of};

    pub(crate) fn none() -> Self
        ensures there { result.there ≡ none_there }
        ensures ending { result.ending ≡ None }
    {
        Pieces {
            there: [false; 1024],
            ending: None,
        }
    }

    pub(crate) fn has(&self, id: u16) -> bool
        ensures { result ≡ slice_index_or self.now.there id false }
    {
        self.there.get(usize::from(id)).copied().unwrap_or(false)
    }

    // The message's length, 0 while its last piece is not known.
    pub(crate) fn total(&self) -> usize
        ensures value { result ≡ total_of self.now.ending }
        ensures fits { result ≤ 16384 }
    {
        self.ending.map_or(0, |ending| ending.total)
    }

    // Whether the last piece is known and every id up to it is there.
    pub(crate) fn none_missing(&self) -> bool
        ensures { result ≡ none_missing self.now.there (last_of self.now.ending) }
    {
        let Some(ending) = self.ending else {
            return false;
        };
        let count = usize::from(ending.id) + 1;
        self.there[..count].iter().all(|piece| *piece)
    }

    // Whether the packet does not fit beside these pieces.
    pub(crate) fn misplaced(&self, piece_length: PieceLength, packet: Packet<'_>) -> bool
        ensures { result ≡ misplaced piece_length.bytes self.now.there (last_of self.now.ending) (carried packet.entry) }
    {
        let Packet { header, data } = packet;
        if piece_length.is_wrong(header.last, data.len()) || header.id >= 1024 {
            return true;
        }
        let end = piece_length.start(header.id) + data.len();
        let after = usize::from(header.id) + 1;
        end > 16384
            || self.ending.is_some_and(|ending| ending.id < header.id)
            || header.last && self.there.iter().skip(after).any(|piece| *piece)
    }

    // Notes a piece whose data ends at `end`.
    pub(crate) fn add(&mut self, header: Header, end: usize)
        requires id { header.id < 1024 }
        requires end { end ≤ 16384 }
        ensures there { self.new.there ≡ slice_set self.old.there header.id true }
        ensures last { last_of self.new.ending ≡ (if header.last then Some header.id else last_of self.old.ending) }
        ensures total { total_of self.new.ending ≡ (if header.last then end else total_of self.old.ending) }
    {
        self.there[usize::from(header.id)] = true;
        if header.last {
            self.ending = Some(Ending {
                id: header.id,
                total: end,
            });
        }
    }
}
