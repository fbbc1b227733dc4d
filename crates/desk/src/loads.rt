// The bytes that a message is loaded from: `hex HEX`, `hex` alone for none, or `ramp N`.
ghost use Rattle.std.specs.Prelude.{◌≡◌, IfOk, vec_items};
ghost use Rattle.desk.specs.Changes.{MayMake};
ghost use Rattle.desk.specs.Loads.{hex_bytes, loaded_of, ramp_bytes, ramp_of};
ghost use Rattle.desk.specs.Words.{texts};

use crate::digits::bytes_of;
use crate::numbers::count;
use crate::trouble::Trouble;
use crate::words::exactly;
use std::alloc::{AllocError, Global};

// Bytes that tell their places.
fn ramp(heap: Global, count: usize) -> Result<Vec<u8>, AllocError>
    ensures { IfOk result (λ bytes. bytes.items ≡ ramp_of count) }
{
    (0..count).map(|i| (i % 251) as u8).collect(heap)
}

// The bytes behind `ramp`.
fn ramp_bytes(heap: Global, words: &[&str]) -> Result<Vec<u8>, Trouble>
    ensures { MayMake (ramp_bytes (texts words.now)) vec_items result }
{
    let [word] = exactly::<_, 1>(words)?;
    Ok(ramp(heap, count(word)?)?)
}

// The bytes behind `hex`.
fn hex_bytes(heap: Global, words: &[&str]) -> Result<Vec<u8>, Trouble>
    ensures { MayMake (hex_bytes (texts words.now)) vec_items result }
{
    match words {
        [] => Ok(Vec::new(heap)),
        [digits] => bytes_of(heap, digits),
        _ => Err(Trouble::TooMany),
    }
}

// The bytes that words ask for.
pub fn loaded_bytes(heap: Global, words: &[&str]) -> Result<Vec<u8>, Trouble>
    ensures { MayMake (loaded_of (texts words.now)) vec_items result }
{
    let [kind, rest @ ..] = words else {
        return Err(Trouble::TooFew);
    };
    match *kind {
        "hex" => hex_bytes(heap, rest),
        "ramp" => ramp_bytes(heap, rest),
        _ => Err(Trouble::NoCommand),
    }
}
