// How a message is cut.
ghost use Rattle.std.specs.Prelude.{◌≡◌, ◌+◌, ◌*◌, ◌≤◌, ◌++◌, length, drop};
ghost use Rattle.messages.specs.Pieces.{piece_length_of, piece_count, piece};
ghost use Rattle.messages.specs.CollectorCalls.{wrong_length};

// The bytes of data in a packet, or at most so many in the last one of a message.
#[derive(Clone, Copy)]
pub(crate) struct PieceLength {
    bytes: usize,
    ghost least: { 1 ≤ bytes },
    ghost most: { bytes ≤ 1434 },
}

impl PieceLength {
    // A number out of range counts as the nearest in it.
    pub(crate) fn clamped(bytes: usize) -> Self
        ensures { result.bytes ≡ piece_length_of bytes }
    {
        PieceLength {
            bytes: bytes.clamp(1, 1434),
        }
    }

    // How many pieces `size` bytes make.
    pub(crate) fn count(self, size: usize) -> usize
        requires { size ≤ 16384 }
        ensures { result ≡ piece_count self.bytes size }
    {
        size.div_ceil(self.bytes)
    }

    // Where piece `id` begins.
    pub(crate) fn start(self, id: u16) -> usize
        ensures { result ≡ id * self.bytes }
    {
        usize::from(id) * self.bytes
    }

    // Copies piece `id` to the front of `bytes` and answers its length.
    pub(crate) fn write_piece(self, message: &[u8], id: u16, bytes: &mut [u8]) -> usize
        requires starts { id * self.bytes ≤ length message.now }
        requires space { self.bytes ≤ length bytes.old }
        ensures answer { result ≡ length (piece self.bytes message.now id) }
        ensures copied { bytes.new ≡ piece self.bytes message.now id ++ drop result bytes.old }
    {
        let rest = &message[self.start(id)..];
        let length = self.bytes.min(rest.len());
        bytes[..length].copy_from_slice(&rest[..length]);
        length
    }

    // Whether a piece of `length` bytes has not the length of its kind.
    pub(crate) fn is_wrong(self, last: bool, length: usize) -> bool
        ensures { result ≡ wrong_length self.bytes last length }
    {
        if last {
            !(1..=self.bytes).contains(&length)
        } else {
            length != self.bytes
        }
    }
}
