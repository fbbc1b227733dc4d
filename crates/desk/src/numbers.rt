// The numbers of a script: decimal, with `-` in front of a negative one.
ghost use Rattle.std.specs.Prelude.{◌≡◌, ◌≢◌, ◌≤◌, IfOk, slice_index};
ghost use Rattle.desk.specs.Numbers.{Parses, all_numbers, count_of, count_or, natural_of, signed_of, unsigned_of};
ghost use Rattle.desk.specs.Words.{texts};
ghost use Rattle.desk.specs.declared.trouble.Trouble.TheVariants.{NoNumber};

use crate::trouble::Trouble;
use crate::words::exactly;
use std::num::ParseIntError;
use std::str::FromStr;

// the largest count, size or place
const MOST_COUNT: u32 = 1_000_000;

// A number of some type, with no `+` in front.
fn number<T: FromStr<Err = ParseIntError>>(word: &str) -> Result<T, Trouble>
    ensures plus { slice_index word.now 0 ≡ 43 → result ≡ Err NoNumber }
    ensures value { slice_index word.now 0 ≢ 43 → Parses T.from_str_gives word.now result }
{
    if word.starts_with('+') {
        return Err(Trouble::NoNumber);
    }
    Ok(word.parse()?)
}

// A number from 0 to 4294967295.
pub fn unsigned(word: &str) -> Result<u32, Trouble>
    ensures { result ≡ unsigned_of word.now }
{
    number::<u32>(word)
}

// A number from −32768 to 32767.
pub fn signed(word: &str) -> Result<i16, Trouble>
    ensures { result ≡ signed_of word.now }
{
    number::<i16>(word)
}

// A number from 0 to `most`.
pub fn natural(word: &str, most: u32) -> Result<u32, Trouble>
    ensures { result ≡ natural_of most word.now }
{
    let n = unsigned(word)?;
    if n > most {
        return Err(Trouble::OutOfRange);
    }
    Ok(n)
}

// A count, a size or a place.
pub fn count(word: &str) -> Result<usize, Trouble>
    ensures value { result ≡ count_of word.now }
    ensures most { IfOk result (λ n. n ≤ 1000000) }
{
    Ok(natural(word, MOST_COUNT)? as usize)
}

// A number that a word of its own writes.
pub trait Written: Copy + Default {
    ghost use Rattle.std.specs.Prelude.{◌≡◌, ℕ, List, Result};
    ghost use Rattle.desk.specs.declared.trouble.Trouble.{Trouble};

    ghost value_of: { List ℕ → Result Self Trouble };

    fn read(word: &str) -> Result<Self, Trouble>
        ensures { result ≡ value_of word.now };
}

impl Written for u8 {
    ghost value_of = { natural_of 255 };

    fn read(word: &str) -> Result<u8, Trouble> {
        Ok(natural(word, 255)? as u8)
    }
}

impl Written for i16 {
    ghost value_of = { signed_of };

    fn read(word: &str) -> Result<i16, Trouble> {
        signed(word)
    }
}

impl Written for u32 {
    ghost value_of = { unsigned_of };

    fn read(word: &str) -> Result<u32, Trouble> {
        unsigned(word)
    }
}

impl Written for usize {
    ghost value_of = { count_of };

    fn read(word: &str) -> Result<usize, Trouble> {
        count(word)
    }
}

// The numbers of words that are to be N.
pub fn all_numbers<T: Written, const N: usize>(words: &[&str]) -> Result<[T; N], Trouble>
    ensures { result ≡ all_numbers T.value_of N (texts words.now) }
{
    if words.len() < N {
        return Err(Trouble::TooFew);
    }
    if words.len() > N {
        return Err(Trouble::TooMany);
    }
    let mut numbers = [T::default(); N];
    for (i, word) in words.iter().enumerate() {
        numbers[i] = T::read(word)?;
    }
    Ok(numbers)
}

// The count of the only word, or the usual one where there is no word.
pub fn count_or(usual: usize, words: &[&str]) -> Result<usize, Trouble>
    ensures { result ≡ count_or usual (texts words.now) }
{
    if words.is_empty() {
        return Ok(usual);
    }
    let [word] = exactly::<_, 1>(words)?;
    count(word)
}
