// The values of a draft, run by run: `V`, or `VxN` for N times V.
ghost use Rattle.std.specs.Prelude.{◌≡◌, ◌++◌, ◌≤◌, IfErr, IfOk, OnOk, replicate, vec_items};
ghost use Rattle.desk.specs.Changes.{MayMake};
ghost use Rattle.desk.specs.Numbers.{natural_of, signed_of};
ghost use Rattle.desk.specs.Runs.{drafted, run_of};
ghost use Rattle.desk.specs.Words.{texts};

use crate::numbers::{Written, count};
use crate::trouble::Trouble;
use std::alloc::Global;

// The value of a run and how many times it comes.
fn run_of<T: Written>(word: &str) -> Result<(T, usize), Trouble>
    ensures value { result ≡ run_of T.value_of word.now }
    ensures most { IfOk result (λ run. run.1 ≤ 1000000) }
{
    match word.split_once('x') {
        Some((value, times)) => {
            let times = count(times)?;
            Ok((T::read(value)?, times))
        }
        None => Ok((T::read(word)?, 1)),
    }
}

// The values of a draft.
fn values<T: Written>(heap: Global, words: &[&str]) -> Result<Vec<T>, Trouble>
    ensures { MayMake (drafted T.value_of (texts words.now)) vec_items result }
{
    if words.is_empty() {
        return Err(Trouble::TooFew);
    }
    let mut values = Vec::new(heap);
    for word in words {
        let (value, times) = run_of::<T>(word)?;
        values.resize(values.len() + times, value)?;
    }
    Ok(values)
}

// The bytes of a plan's draft.
pub fn plan_bytes(heap: Global, words: &[&str]) -> Result<Vec<u8>, Trouble>
    ensures { MayMake (drafted (natural_of 255) (texts words.now)) vec_items result }
{
    values::<u8>(heap, words)
}

// The numbers of a draft of exponents.
pub fn exponents(heap: Global, words: &[&str]) -> Result<Vec<i16>, Trouble>
    ensures { MayMake (drafted signed_of (texts words.now)) vec_items result }
{
    values::<i16>(heap, words)
}
