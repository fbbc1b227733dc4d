// An exciter and a receiver on one line-up and one channel.
ghost use Rattle.std.specs.Prelude.{◌≡◌, ◌-◌, IfOk, Some};
ghost use Rattle.frames.specs.Apart.{FramesApart};
ghost use Rattle.frames.specs.Frames.{sending_on};
ghost use Rattle.frames.specs.Reading.{mending_on};
ghost use Rattle.lineup.specs.Views.{block_length, view_of};
ghost use Rattle.lineup.specs.declared.mode.Mode.{Mode};
ghost use Rattle.messages.specs.Pieces.{piece_length_of};
ghost use Rattle.radio.specs.ExciterCalls.{new_exciter};
ghost use Rattle.radio.specs.ExciterStates.{exciter_state};
ghost use Rattle.radio.specs.Lines.{line_on};
ghost use Rattle.radio.specs.Promise.{RunsPromise, RunsShown};
ghost use Rattle.radio.specs.ReceiverCalls.{new_receiver};
ghost use Rattle.radio.specs.ReceiverStates.{receiver_state};

use crate::exciter::Exciter;
use crate::receiver::Receiver;
use cells::Constellation;
use codes::lengths::FixedCode;
use codes::words::MendingCode;
use frames::Channel;
use lineup::line_up::LineUp;
use staircase::data_code::DataCode;
use std::alloc::{AllocError, Global};

// The receiver has the line-up that is given, the exciter its clone.
// The promise is over the frames of all exciters with the codes and constellations, and over every history of calls on the two;
// where the line-up is filled there is a history in which a message of two pieces is reported complete.
pub fn pair<
    'a,
    M: FixedCode<2, 4> + MendingCode<Symbol = u8>,
    T: FixedCode<9, 29> + MendingCode<Symbol = u8>,
    D: DataCode + MendingCode<Symbol = bool>,
    A: Constellation,
    B: Constellation,
    C: Constellation,
>(
    heap: Global,
    channel: &'a Channel<M, T, A, B, C>,
    line_up: LineUp<D>,
) -> Result<
    (
        Exciter<'a, M, T, D, A, B, C>,
        Receiver<'a, M, T, D, A, B, C>,
    ),
    AllocError,
>
    ensures exciter { IfOk result (λ p. exciter_state p.0 ≡ new_exciter (line_on (sending_on M.SendingCode.own T.SendingCode.own D.SendingCode.own A.Constellation.own B.Constellation.own C.Constellation.own channel.now line_up.code) line_up)) }
    ensures receiver { IfOk result (λ p. receiver_state p.1 ≡ new_receiver (exciter_state p.0).line (mending_on M.MendingCode.own T.MendingCode.own D.MendingCode.own A.Constellation.own B.Constellation.own C.Constellation.own channel.now line_up.code)) }
    ensures frames { IfOk result (λ p. FramesApart (exciter_state p.0).line.air (receiver_state p.1).ear (M.SendingCode.distance channel.now.mis) (T.SendingCode.distance channel.now.tis) (D.SendingCode.distance line_up.code)) }
    ensures runs { IfOk result (λ p. RunsPromise (piece_length_of (block_length (view_of line_up) - 6)) (exciter_state p.0) (receiver_state p.1)) }
    ensures shown { IfOk result (λ p. (m : Mode) → line_up.mode ≡ Some m → RunsShown (piece_length_of (block_length (view_of line_up) - 6)) (exciter_state p.0) (receiver_state p.1)) }
{
    let copy = line_up.clone()?;
    let exciter = Exciter::new(heap, channel, copy)?;
    let receiver = Receiver::new(heap, channel, line_up)?;
    Ok((exciter, receiver))
}
