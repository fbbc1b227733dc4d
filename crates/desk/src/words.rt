// The words of a command.
ghost use Rattle.std.specs.Prelude.{Ok};
ghost use Rattle.desk.specs.Changes.{Makes};
ghost use Rattle.desk.specs.Words.{counted};

use crate::trouble::Trouble;

// Words that are to be N.
pub fn exactly<T, const N: usize>(words: &[T]) -> Result<&[T; N], Trouble>
    ensures { Makes (counted N words.now (Ok words.now)) (λ all. all.now) result }
{
    match words.split_first_chunk::<N>() {
        Some((all, [])) => Ok(all),
        Some(_) => Err(Trouble::TooMany),
        None => Err(Trouble::TooFew),
    }
}
