// Cyclic redundancy checks over bits.
ghost use Rattle.std.specs.Prelude.{◌≡◌, ◌-◌, ◌^◌, ◌<◌, ◌≤◌};
ghost use Rattle.bits.specs.Crc.{crc8_of, crc16_of, crc_of, IsRemainder, stepped};

// The generator x^width + polynomial: the bit of 2^k in `polynomial` is the coefficient of x^k.
#[derive(Clone, Copy)]
pub struct Generator {
    pub width: u32,
    pub polynomial: u32,
    ghost degree: { width ≤ 31 },
    ghost lower: { polynomial < 2 ^ width },
}

impl Generator {
    // The register after one bit more.
    fn step(self, register: u32, bit: bool) -> u32
        requires { register < 2 ^ self.width }
        ensures { result ≡ stepped self.width self.polynomial register bit }
    {
        let span = 1u32 << self.width;
        let doubled = register * 2;
        let leaving = doubled / span % 2 == 1;
        if leaving ^ bit {
            doubled % span ^ self.polynomial
        } else {
            doubled % span
        }
    }

    // The check of `bits`: the register starts from all ones and is inverted at the end.
    pub fn crc(self, bits: &[bool]) -> u32
        ensures value { result ≡ crc_of self.width self.polynomial bits.now }
        ensures remainder { IsRemainder self.width self.polynomial bits.now (2 ^ self.width - 1 - result) }
    {
        let ones = (1u32 << self.width) - 1;
        let mut register = ones;
        for bit in bits {
            register = self.step(register, *bit);
        }
        ones - register
    }
}

// x^8 + x^4 + x^3 + x^2 + 1
const GENERATOR_8: Generator = Generator {
    width: 8,
    polynomial: 0b1_1101,
};

// x^16 + x^12 + x^5 + 1
const GENERATOR_16: Generator = Generator {
    width: 16,
    polynomial: 0x1021,
};

// The check of eight bits over `bits`.
#[tactic(auto, using(crate::proofs::Remainders::crc_below))]
pub fn crc8(bits: &[bool]) -> u8
    ensures value { result ≡ crc8_of bits.now }
    ensures remainder { IsRemainder 8 29 bits.now (255 - result) }
{
    GENERATOR_8.crc(bits) as u8
}

// The check of sixteen bits over `bits`.
#[tactic(auto, using(crate::proofs::Remainders::crc_below))]
pub fn crc16(bits: &[bool]) -> u16
    ensures value { result ≡ crc16_of bits.now }
    ensures remainder { IsRemainder 16 4129 bits.now (65535 - result) }
{
    GENERATOR_16.crc(bits) as u16
}
