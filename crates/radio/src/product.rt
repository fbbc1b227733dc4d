// The codes and constellations of the product: RS(4,2), RS(29,9), the staircase code and QAM.
ghost use Rattle.std.specs.Prelude.{◌≡◌, ◌-◌, IfOk, Some};
ghost use Rattle.cells.specs.Qam.{qam_decided};
ghost use Rattle.frames.specs.Apart.{FramesApart};
ghost use Rattle.lineup.specs.Views.{block_length, view_of};
ghost use Rattle.lineup.specs.declared.mode.Mode.{Mode};
ghost use Rattle.messages.specs.Pieces.{piece_length_of};
ghost use Rattle.frames.specs.Frames.{sending_on};
ghost use Rattle.frames.specs.Reading.{mending};
ghost use Rattle.radio.specs.Lines.{line_on};
ghost use Rattle.radio.specs.ExciterCalls.{new_exciter};
ghost use Rattle.radio.specs.ExciterStates.{exciter_state};
ghost use Rattle.radio.specs.Promise.{RunsPromise, RunsShown};
ghost use Rattle.radio.specs.ReceiverCalls.{new_receiver};
ghost use Rattle.radio.specs.ReceiverStates.{receiver_state};

use crate::exciter::Exciter;
use crate::receiver::Receiver;
use crate::together::pair;
use cells::{Constellation, Qam};
use codes::words::SendingCode;
use frames::Channel;
use lineup::line_up::StaircaseLineUp;
use reed_solomon::streams::{MisReedSolomon, TisReedSolomon};
use staircase::code::Staircase;
use std::alloc::{AllocError, Global};

pub type NavdatChannel = Channel<MisReedSolomon, TisReedSolomon, Qam, Qam, Qam>;

pub type NavdatExciter<'a> = Exciter<'a, MisReedSolomon, TisReedSolomon, Staircase, Qam, Qam, Qam>;

pub type NavdatReceiver<'a> = Receiver<
    'a,
    MisReedSolomon,
    TisReedSolomon,
    Staircase,
    Qam,
    Qam,
    Qam,
>;

// An exciter and a receiver of the product. Frames differ in at least 3 of the 4 symbols of the MIS, or state the same in it;
// and in at least 21 of the 29 symbols of the TIS, or state the same in that. Of every run of the two, what `pair` promises.
pub fn navdat_pair<'a>(
    heap: Global,
    channel: &'a NavdatChannel,
    line_up: StaircaseLineUp,
) -> Result<(NavdatExciter<'a>, NavdatReceiver<'a>), AllocError>
    ensures exciter { IfOk result (λ p. exciter_state p.0 ≡ new_exciter (line_on (sending_on ⟦<MisReedSolomon as SendingCode>⟧ ⟦<TisReedSolomon as SendingCode>⟧ ⟦<Staircase as SendingCode>⟧ ⟦<Qam as Constellation>⟧ ⟦<Qam as Constellation>⟧ ⟦<Qam as Constellation>⟧ channel.now line_up.code) line_up)) }
    ensures receiver { IfOk result (λ p. receiver_state p.1 ≡ new_receiver (exciter_state p.0).line (mending 1 1 0 qam_decided qam_decided qam_decided)) }
    ensures frames { IfOk result (λ p. FramesApart (exciter_state p.0).line.air (receiver_state p.1).ear 3 21 1) }
    ensures runs { IfOk result (λ p. RunsPromise (piece_length_of (block_length (view_of line_up) - 6)) (exciter_state p.0) (receiver_state p.1)) }
    ensures shown { IfOk result (λ p. (m : Mode) → line_up.mode ≡ Some m → RunsShown (piece_length_of (block_length (view_of line_up) - 6)) (exciter_state p.0) (receiver_state p.1)) }
{
    pair(heap, channel, line_up)
}
