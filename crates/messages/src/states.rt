// How far the sender and the collector are.
ghost use Rattle.std.specs.Prelude.{◌≡◌, Some, None, if◌then◌else◌};
ghost use Rattle.messages.specs.SenderCalls.{is_loaded, next_piece, next_toggle};

#[derive(Clone, Copy)]
pub(crate) enum Progress {
    Idle,
    // loaded, and no packet of it was sent
    Waiting,
    // the piece that comes next
    Sending(u16),
}

#[derive(Clone, Copy)]
pub(crate) enum Phase {
    Empty,
    Collecting,
    Complete,
}

impl Progress {
    // The piece that comes next, if a message is loaded.
    pub(crate) fn piece(self) -> Option<u16>
        ensures { result ≡ (if is_loaded self then Some (next_piece self) else None) }
    {
        match self {
            Progress::Idle => None,
            Progress::Waiting => Some(0),
            Progress::Sending(id) => Some(id),
        }
    }

    // The toggle of the next packet, after `toggle`.
    pub(crate) fn toggled(self, toggle: bool) -> bool
        ensures { result ≡ next_toggle self toggle }
    {
        match self {
            Progress::Waiting => !toggle,
            Progress::Idle | Progress::Sending(_) => toggle,
        }
    }
}
