// 4-, 16- and 64-QAM.
ghost use Rattle.std.specs.Prelude.{◌≡◌, ◌^◌, ◌<◌, ◌≤◌, length, take, drop, ◌-ℤ◌};
ghost use Rattle.std.proofs.Common.{length-append, length-take, length-drop, arith};
ghost use Rattle.cells.specs.Cells.{axis_bits};
ghost use Rattle.cells.specs.Qam.{amplitude as amplitude_at, amplitude_of, decided_number, low_bits, low_first, Nearest, qam_decided, qam_point};
ghost use Rattle.cells.specs.LowFirst.{length-low_bits};
ghost use Rattle.std.proofs.lemmas.List.{take-append-drop};
ghost use Rattle.cells.specs.QamConstellationLemmas.{axis_steady};

use crate::cell::{Cell, Order};
use crate::constellation::Constellation;

// The amplitude of one of the axis's numbers.
fn amplitude_of(order: Order, v: u8) -> i16
    requires { v < 2 ^ axis_bits order }
    ensures { result ≡ amplitude_at (axis_bits order) v }
{
    (i16::from(order.largest()) - 2 * i16::from(v)) * 256
}

// The amplitude of the number `v` on an axis, where it is one of the axis's numbers.
pub fn amplitude(order: Order, v: u8) -> Option<i16>
    ensures { result ≡ amplitude_of (axis_bits order) v }
{
    (v <= order.largest()).then(|| amplitude_of(order, v))
}

// How far `x` lies below the largest amplitude.
fn depth(order: Order, x: i16) -> i32
    ensures { result ≡ amplitude_at (axis_bits order) 0 -ℤ x }
{
    i32::from(amplitude_of(order, 0)) - i32::from(x)
}

// The number of the amplitude nearest to `x`; a tie goes to the larger amplitude.
pub fn decide_axis(order: Order, x: i16) -> u8
    ensures number { result ≡ decided_number (axis_bits order) x }
    ensures nearest { Nearest (axis_bits order) x result }
{
    let largest = i32::from(order.largest());
    let below = depth(order, x) + 255;
    (below.max(0) / 512).min(largest) as u8
}

// The number that a few bits form, the first being the lowest.
fn low_first(bits: &[bool]) -> u8
    requires { length bits.now ≤ 8 }
    ensures { result ≡ low_first bits.now }
{
    bits.iter().rev().fold(0, |v, bit| v << 1 | u8::from(*bit))
}

// Writes the bits of `v`, the lowest first.
fn write_low_first(v: u8, bits: &mut [bool])
    ensures { bits.new ≡ low_bits (length bits.old) v }
{
    let mut rest = v;
    for bit in bits.iter_mut() {
        *bit = rest % 2 == 1;
        rest /= 2;
    }
}

// The amplitude that the bits of an axis are sent with.
fn axis_point(order: Order, bits: &[bool]) -> i16
    requires { length bits.now ≡ axis_bits order }
    ensures { result ≡ amplitude_at (axis_bits order) (low_first bits.now) }
{
    amplitude_of(order, low_first(bits))
}

// Quadrature amplitude modulation: the first half of a cell's bits gives the real amplitude, the second the imaginary one.
#[derive(Clone, Copy, PartialEq, Eq, Debug, Default)]
pub struct Qam;

impl Constellation for Qam {
    ghost point = { λ _ o bits. qam_point o bits };

    ghost decided = { λ _ o x. qam_decided o x };

    ghost sized = { λ q o x. simp (length-append, length-low_bits) (omega arith) };

    ghost steady = { λ q o bits x e h.
        let m = axis_bits o in
        let first : length (take m bits) ≡ m = simp length-take (omega arith) in
        let second : length (drop m bits) ≡ m = simp length-drop (omega arith) in
        let re = axis_steady o (take m bits) x.real first h.0 in
        let im = axis_steady o (drop m bits) x.imaginary second h.1 in
        let joined = take-append-drop m bits in
        rw (re, im) joined };

    fn map(&self, order: Order, bits: &[bool]) -> Cell {
        let (first, second) = bits.split_at(order.axis_bits());
        Cell {
            real: axis_point(order, first),
            imaginary: axis_point(order, second),
        }
    }

    fn decide(&self, order: Order, cell: Cell, bits: &mut [bool]) {
        let m = order.axis_bits();
        write_low_first(decide_axis(order, cell.real), &mut bits[..m]);
        write_low_first(decide_axis(order, cell.imaginary), &mut bits[m..]);
    }
}
