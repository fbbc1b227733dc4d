// The bytes that hexadecimal digits write.
ghost use Rattle.std.specs.Prelude.{vec_items};
ghost use Rattle.hex.specs.Hex.{decode_of};
ghost use Rattle.desk.specs.Changes.{MayMake};
ghost use Rattle.desk.specs.Loads.{decoded};

use crate::trouble::Trouble;
use std::alloc::Global;

// Two digits a byte. A wrong digit is found before memory is taken.
pub(crate) fn bytes_of(heap: Global, digits: &str) -> Result<Vec<u8>, Trouble>
    ensures { MayMake (decoded (decode_of digits.now)) vec_items result }
{
    if !digits.as_bytes().iter().all(u8::is_ascii_hexdigit) {
        return Err(Trouble::NoNumber);
    }
    Ok(hex::decode(heap, digits)?)
}
