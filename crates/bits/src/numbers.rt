// Numbers of a few bits each, cut from a stream of bits and spread into one, highest bit first.
ghost use Rattle.std.specs.Prelude.{◌≡◌, ◌*◌, ◌≤◌, length};
ghost use Rattle.bits.specs.Bits.{cut, spread};

use crate::fields::{read_number, write_number};

// Fills `numbers` from the first bits, `WIDTH` to a number; further bits are ignored.
pub fn cut<const WIDTH: usize>(bits: &[bool], numbers: &mut [u8])
    requires width { WIDTH ≤ 8 }
    requires room { WIDTH * length numbers.old ≤ length bits.now }
    ensures { numbers.new ≡ cut WIDTH (length numbers.old) bits.now }
{
    let mut rest = bits;
    for number in numbers.iter_mut() {
        let (field, behind) = rest.split_at(WIDTH);
        *number = read_number(field) as u8;
        rest = behind;
    }
}

// Writes the numbers one after the other, `WIDTH` bits to a number.
pub fn spread<const WIDTH: usize>(numbers: &[u8], bits: &mut [bool])
    requires { length bits.old ≡ WIDTH * length numbers.now }
    ensures { bits.new ≡ spread WIDTH numbers.now }
{
    for (i, number) in numbers.iter().enumerate() {
        let place = WIDTH * i;
        write_number(u32::from(*number), &mut bits[place..place + WIDTH]);
    }
}
