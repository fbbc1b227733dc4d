// What the commands hold from line to line.
use desk::frames::Frames;
use lineup::line_up::StaircaseLineUp;
use radio::{NavdatChannel, NavdatExciter, NavdatReceiver, navdat_pair};
use std::alloc::{AllocError, Global};

// A line-up and the drafts that it is filled from, an exciter, a receiver, and a list of frames.
#[derive(Drop)]
pub(crate) struct Held<'a> {
    pub heap: Global,
    pub channel: &'a NavdatChannel,
    pub line_up: StaircaseLineUp,
    pub plan: Vec<u8>,
    pub exponents: Vec<i16>,
    pub exciter: NavdatExciter<'a>,
    // in a frame of the exciter's line-up
    pub numbers: usize,
    pub receiver: NavdatReceiver<'a>,
    pub frames: Frames,
}

impl<'a> Held<'a> {
    // A new line-up, and an exciter and a receiver on copies of it; the drafts and the list are empty.
    pub(crate) fn new(heap: Global, channel: &'a NavdatChannel) -> Result<Self, AllocError> {
        let line_up = StaircaseLineUp::new(heap)?;
        let (exciter, receiver) = navdat_pair(heap, channel, line_up.clone()?)?;
        Ok(Held {
            heap,
            channel,
            line_up,
            plan: Vec::new(heap),
            exponents: Vec::new(heap),
            exciter,
            numbers: 0,
            receiver,
            frames: Frames {
                frames: Vec::new(heap),
            },
        })
    }
}
