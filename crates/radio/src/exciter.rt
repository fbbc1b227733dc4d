// The exciter: a station, and the message that is sent piece by piece.
ghost use Rattle.std.specs.Prelude.{◌≡◌, ◌-◌, IfOk};
ghost use Rattle.lineup.specs.Views.{block_length, view_of};
ghost use Rattle.messages.specs.Pieces.{piece_length_of};
ghost use Rattle.messages.specs.Views.{sender_state};

use crate::next::{AROUND_DATA, write_next};
use cells::Constellation;
use codes::lengths::FixedCode;
use frames::Channel;
use lineup::line_up::LineUp;
use messages::Sender;
use modes::Station;
use packets::MOST_BLOCK;
use refusals::Refusal;
use staircase::data_code::DataCode;
use std::alloc::{AllocError, Global};

#[derive(Drop)]
pub struct Exciter<
    'a,
    M: FixedCode<2, 4>,
    T: FixedCode<9, 29>,
    D: DataCode,
    A: Constellation,
    B: Constellation,
    C: Constellation,
> {
    channel: &'a Channel<M, T, A, B, C>,
    line_up: LineUp<D>,
    // of the frames that are sent from now on
    station: Option<Station>,
    // the message's copy, the toggle and the next piece
    sender: Sender,
    ghost cut: { (sender_state sender).piece_length ≡ piece_length_of (block_length (view_of line_up) - 6) },
}

impl<
    'a,
    M: FixedCode<2, 4>,
    T: FixedCode<9, 29>,
    D: DataCode,
    A: Constellation,
    B: Constellation,
    C: Constellation,
> Exciter<'a, M, T, D, A, B, C> {
    ghost use Rattle.std.specs.Prelude.{length};
    ghost use Rattle.frames.specs.Frames.{sending_on};
    ghost use Rattle.radio.specs.ExciterCalls.{Clears, Loads, Sends, Stations, new_exciter};
    ghost use Rattle.radio.specs.Lines.{line_on};
    ghost use Rattle.radio.specs.ExciterStates.{exciter_state};

    // A new exciter has no station and no message. It takes the line-up over: who keeps his own gives a clone.
    pub fn new(
        heap: Global,
        channel: &'a Channel<M, T, A, B, C>,
        line_up: LineUp<D>,
    ) -> Result<Self, AllocError>
        ensures { IfOk result (λ e. exciter_state e ≡ new_exciter (line_on (sending_on M.SendingCode.own T.SendingCode.own D.SendingCode.own A.Constellation.own B.Constellation.own C.Constellation.own channel.now line_up.code) line_up)) }
    {
        let piece_length = line_up.block_length().saturating_sub(AROUND_DATA);
        let sender = Sender::new(heap, piece_length)?;
        Ok(Exciter {
            channel,
            line_up,
            station: None,
            sender,
        })
    }

    // The station record that frames carry from now on.
    pub fn station(
        &mut self,
        station: u32,
        hour: u32,
        minute: u32,
        duration: u32,
    ) -> Result<(), Refusal>
        ensures { Stations (exciter_state self.old) (exciter_state self.new) station hour minute duration result }
    {
        let record = Station::new(station, hour, minute, duration).ok_or(
            Refusal::StationOutOfRange,
        )?;
        self.station = Some(record);
        Ok(())
    }

    // Copies a message, which is sent from its first piece on.
    pub fn load(&mut self, message: &[u8]) -> Result<(), Refusal>
        ensures { Loads (exciter_state self.old) (exciter_state self.new) message.now result }
    {
        if self.line_up.mode().is_none() {
            return Err(Refusal::EmptyLineUp);
        }
        self.sender.load(message)
    }

    // Writes the next piece's frame, two numbers a cell.
    pub fn send(&mut self, numbers: &mut [i16]) -> Result<(), Refusal>
        ensures { Sends (exciter_state self.old) (exciter_state self.new) numbers.old numbers.new result }
    {
        let Some(layout) = self.line_up.layout() else {
            return Err(Refusal::EmptyLineUp);
        };
        if !self.sender.is_loaded() {
            return Err(Refusal::NothingLoaded);
        }
        let Some(station) = self.station else {
            return Err(Refusal::NoStation);
        };
        if numbers.len() != 2 * layout.plan.len() {
            return Err(Refusal::SliceLength);
        }
        let mut store = [0; MOST_BLOCK];
        let block = &mut store[..layout.block_length()];
        write_next(&mut self.sender, block)?;
        self.channel.write_frame(&layout, station, block, numbers);
        Ok(())
    }

    // Drops the message.
    pub fn clear(&mut self) -> Result<(), Refusal>
        ensures { Clears (exciter_state self.old) (exciter_state self.new) result }
    {
        self.sender.clear()
    }
}
