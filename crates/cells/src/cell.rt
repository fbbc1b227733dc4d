// A cell of the frame, and how many bits it carries.
ghost use Rattle.std.specs.Prelude.{◌≡◌, ◌+◌, ◌^◌, ◌≤◌};
ghost use Rattle.cells.specs.Cells.{axis_bits, cell_bits};

// A point of the plane; one unit length is 256.
#[derive(Clone, Copy, PartialEq, Eq, Debug)]
pub struct Cell {
    pub real: i16,
    pub imaginary: i16,
}

impl Cell {
    // (0, 0)
    pub const ORIGIN: Cell = Cell {
        real: 0,
        imaginary: 0,
    };
}

// The order of a modulation: how many points its constellation has.
#[derive(Clone, Copy, PartialEq, Eq, Debug)]
pub enum Order {
    Four,
    Sixteen,
    SixtyFour,
}

impl Order {
    pub fn axis_bits(self) -> usize
        ensures { result ≡ axis_bits self }
    {
        match self {
            Order::Four => 1,
            Order::Sixteen => 2,
            Order::SixtyFour => 3,
        }
    }

    pub fn cell_bits(self) -> usize
        ensures count { result ≡ cell_bits self }
        ensures most { result ≤ 6 }
    {
        2 * self.axis_bits()
    }

    // The largest number that the bits of an axis form.
    pub(crate) fn largest(self) -> u8
        ensures number { result + 1 ≡ 2 ^ axis_bits self }
        ensures bounds { (1 ≤ result) × (result ≤ 7) }
    {
        (1 << self.axis_bits()) - 1
    }
}
