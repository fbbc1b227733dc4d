// Row sums: groups of the message, each moved by an exponent, added modulo 2.
ghost use Rattle.std.specs.Prelude.{◌≡◌, ◌+◌, ◌*◌, ◌%◌, ◌<◌, false, length, slice_index_or};
ghost use Rattle.staircase.specs.Staircase.{moved, places, row_sum, ◌⊕◌};

use crate::shape::Shape;

// Adds the bits to the sums, place by place.
fn add(bits: &[bool], sums: &mut [bool])
    requires { length bits.now ≡ length sums.old }
    ensures { sums.new ≡ places (length sums.old) (λ r. slice_index_or sums.old r false ⊕ slice_index_or bits.now r false) }
{
    for (r, sum) in sums.iter_mut().enumerate() {
        *sum ^= bits[r];
    }
}

// Adds the group, moved by `shift` places, to the sums.
fn add_moved(group: &[bool], shift: usize, sums: &mut [bool])
    requires same { length group.now ≡ length sums.old }
    requires some { 0 < length sums.old }
    ensures { sums.new ≡ places (length sums.old) (λ r. slice_index_or sums.old r false ⊕ slice_index_or group.now ((r + shift) % length sums.old) false) }
{
    // nothing is moved
    if shift == 0 {
        return add(group, sums);
    }
    let lift = group.len();
    let (front, back) = group.split_at(shift % lift);
    let (low, high) = sums.split_at_mut(back.len());
    add(back, low);
    add(front, high);
}

// Adds what a column gives to the sums: its group, moved by its exponent; −1 stands for no group.
fn add_column(exponent: i16, group: &[bool], sums: &mut [bool])
    requires same { length group.now ≡ length sums.old }
    requires some { 0 < length sums.old }
    ensures { sums.new ≡ places (length sums.old) (λ r. slice_index_or sums.old r false ⊕ moved (length sums.old) exponent group.now r) }
{
    if let Ok(shift) = usize::try_from(exponent) {
        add_moved(group, shift, sums);
    }
}

impl Shape {
    // Adds the row sum of the message's groups, one for each exponent, to the sums.
    pub(crate) fn add_row(self, exponents: &[i16], message: &[bool], sums: &mut [bool])
        requires size { length message.now ≡ length exponents.now * self.lift }
        requires room { length sums.old ≡ self.lift }
        ensures { sums.new ≡ places self.lift (λ r. slice_index_or sums.old r false ⊕ row_sum self.lift exponents.now message.now r) }
    {
        for (exponent, group) in exponents.iter().zip(message.chunks(self.lift)) {
            add_column(*exponent, group, sums);
        }
    }
}
