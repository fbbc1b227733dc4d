// The receiver: a message, collected piece by piece from the frames that are taken.
ghost use Rattle.std.specs.Prelude.{◌≡◌, ◌-◌, IfOk, length};
ghost use Rattle.frames.specs.Frames.{sending_on};
ghost use Rattle.frames.specs.Reading.{mending_on};
ghost use Rattle.lineup.specs.Views.{block_length, view_of};
ghost use Rattle.messages.specs.Pieces.{piece_length_of};
ghost use Rattle.messages.specs.Views.{collector_state};

use crate::answer::Taken;
use crate::next::AROUND_DATA;
use cells::Constellation;
use codes::lengths::FixedCode;
use codes::words::MendingCode;
use frames::{Channel, Heard, ReceivedCells};
use lineup::line_up::LineUp;
use messages::Collector;
use packets::MOST_BLOCK;
use refusals::Refusal;
use staircase::data_code::DataCode;
use std::alloc::{AllocError, Global};

#[derive(Drop)]
pub struct Receiver<
    'a,
    M: FixedCode<2, 4> + MendingCode<Symbol = u8>,
    T: FixedCode<9, 29> + MendingCode<Symbol = u8>,
    D: DataCode + MendingCode<Symbol = bool>,
    A: Constellation,
    B: Constellation,
    C: Constellation,
> {
    channel: &'a Channel<M, T, A, B, C>,
    line_up: LineUp<D>,
    collector: Collector,
    ghost cut: { (collector_state collector).piece_length ≡ piece_length_of (block_length (view_of line_up) - 6) },
}

impl<
    'a,
    M: FixedCode<2, 4> + MendingCode<Symbol = u8>,
    T: FixedCode<9, 29> + MendingCode<Symbol = u8>,
    D: DataCode + MendingCode<Symbol = bool>,
    A: Constellation,
    B: Constellation,
    C: Constellation,
> Receiver<'a, M, T, D, A, B, C> {
    ghost use Rattle.radio.specs.Lines.{line_on};
    ghost use Rattle.radio.specs.ReceiverCalls.{Fetches, Hears, Takes, new_receiver};
    ghost use Rattle.radio.specs.ReceiverStates.{heard, receiver_state};

    // A new receiver is empty. It takes the line-up over: who keeps his own gives a clone.
    pub fn new(
        heap: Global,
        channel: &'a Channel<M, T, A, B, C>,
        line_up: LineUp<D>,
    ) -> Result<Self, AllocError>
        ensures { IfOk result (λ r. receiver_state r ≡ new_receiver (line_on (sending_on M.SendingCode.own T.SendingCode.own D.SendingCode.own A.Constellation.own B.Constellation.own C.Constellation.own channel.now line_up.code) line_up) (mending_on M.MendingCode.own T.MendingCode.own D.MendingCode.own A.Constellation.own B.Constellation.own C.Constellation.own channel.now line_up.code)) }
    {
        let piece_length = line_up.block_length().saturating_sub(AROUND_DATA);
        let collector = Collector::new(heap, piece_length)?;
        Ok(Receiver {
            channel,
            line_up,
            collector,
        })
    }

    // What is read of a frame, or why it is refused. The packet's data stand in `store`.
    fn read<'b>(
        &self,
        numbers: &[i16],
        store: &'b mut [u8; MOST_BLOCK],
    ) -> Result<Heard<'b>, Refusal>
        ensures { Hears (receiver_state self.now) numbers.now (heard result) }
    {
        let Some(layout) = self.line_up.layout() else {
            return Err(Refusal::EmptyLineUp);
        };
        let Some(received) = ReceivedCells::new(layout.plan, numbers) else {
            return Err(Refusal::SliceLength);
        };
        let block = &mut store[..layout.block_length()];
        Ok(self.channel.read_frame(&layout, received, block)?)
    }

    // Takes a frame, two numbers a cell.
    pub fn take(&mut self, numbers: &[i16]) -> Result<Taken, Refusal>
        ensures { Takes (receiver_state self.old) (receiver_state self.new) numbers.now result }
    {
        let mut store = [0; MOST_BLOCK];
        let heard = self.read(numbers, &mut store)?;
        let placing = self.collector.take(heard.packet)?;
        Ok(Taken {
            placing,
            mode: heard.mode,
            station: heard.station,
            mended: heard.mended,
        })
    }

    // Copies the message to the front of `bytes` and answers its length.
    pub fn fetch(&self, bytes: &mut [u8]) -> Result<usize, Refusal>
        ensures { Fetches (receiver_state self.now) bytes.old bytes.new result }
    {
        self.collector.fetch(bytes)
    }
}
