// A sender and a collector that are made together.
ghost use Rattle.std.specs.Prelude.{◌≡◌, IfOk};
ghost use Rattle.messages.specs.Pieces.{piece_length_of};
ghost use Rattle.messages.specs.SenderCalls.{new_sender};
ghost use Rattle.messages.specs.CollectorCalls.{new_collector};
ghost use Rattle.messages.specs.Promise.{Promise, Shown};
ghost use Rattle.messages.specs.Views.{sender_state, collector_state};

use crate::collecting::Collector;
use crate::sending::Sender;
use std::alloc::{AllocError, Global};

// The promise is over every history of calls on the two.
pub fn pair(heap: Global, piece_length: usize) -> Result<(Sender, Collector), AllocError>
    ensures new { IfOk result (λ p. (sender_state p.0 ≡ new_sender piece_length) × (collector_state p.1 ≡ new_collector piece_length)) }
    ensures promise { IfOk result (λ p. Promise (piece_length_of piece_length) (sender_state p.0) (collector_state p.1)) }
    ensures shown { IfOk result (λ p. Shown (piece_length_of piece_length) (sender_state p.0) (collector_state p.1)) }
{
    let sender = Sender::new(heap, piece_length)?;
    let collector = Collector::new(heap, piece_length)?;
    Ok((sender, collector))
}
