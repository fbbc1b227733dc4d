// Fields of bits, highest bit first.
ghost use Rattle.std.specs.Prelude.{◌≡◌, ◌≤◌, length};
ghost use Rattle.bits.specs.Bits.{bits_of, number_of};

// Writes `value` over the whole of `bits`; bits of the value that have no place are left out.
pub fn write_number(value: u32, bits: &mut [bool])
    ensures { bits.new ≡ bits_of (length bits.old) value }
{
    let mut rest = value;
    for bit in bits.iter_mut() {
        *bit = rest % 2 == 1;
        rest /= 2;
    }
    bits.reverse();
}

// The number that `bits` write.
pub fn read_number(bits: &[bool]) -> u32
    requires { length bits.now ≤ 32 }
    ensures { result ≡ number_of bits.now }
{
    bits.iter()
        .fold(0, |number, bit| number << 1 | u32::from(*bit))
}
