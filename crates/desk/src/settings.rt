// Words `I=V`, which change numbers of cells before they are read.
ghost use Rattle.std.specs.Prelude.{◌≡◌};
ghost use Rattle.std.specs.List.{flat_map};
ghost use Rattle.desk.specs.Settings.{set_all};
ghost use Rattle.desk.specs.Texts.{numbers_of};
ghost use Rattle.desk.specs.Words.{texts};

use crate::numbers::{count, signed};
use crate::trouble::Trouble;
use cells::Cell;
use std::str::FromStr;

// Number `place` of some cells, counted from 0 and real before imaginary, is to be `value`.
#[derive(Clone, Copy)]
struct Setting {
    place: usize,
    value: i16,
}

impl FromStr for Setting {
    ghost use Rattle.std.specs.Prelude.{◌≡◌};
    ghost use Rattle.desk.specs.Settings.{setting_of};

    type Err = Trouble;

    ghost from_str_gives = { λ word setting. setting ≡ setting_of word };

    fn from_str(word: &str) -> Result<Self, Trouble> {
        let (place, value) = word.split_once('=').ok_or(Trouble::NoNumber)?;
        Ok(Setting {
            place: count(place)?,
            value: signed(value)?,
        })
    }
}

impl Setting {
    ghost use Rattle.std.specs.List.{flat_map};
    ghost use Rattle.desk.specs.Changes.{Does, with_number};
    ghost use Rattle.desk.specs.Texts.{numbers_of};

    // Sets the number, where there is one of that place.
    fn apply(self, cells: &mut [Cell]) -> Result<(), Trouble>
        ensures { let numbers = flat_map numbers_of cells.old in Does (with_number self.place self.value numbers) numbers (flat_map numbers_of cells.new) result }
    {
        let index = self.place / 2;
        if index >= cells.len() {
            return Err(Trouble::NotThere);
        }
        if self.place % 2 == 0 {
            cells[index].real = self.value;
        } else {
            cells[index].imaginary = self.value;
        }
        Ok(())
    }
}

// Sets numbers of the cells, a word for each, up to the first word that is wrong.
pub fn set_numbers(words: &[&str], cells: &mut [Cell]) -> Result<(), Trouble>
    ensures answer { result ≡ (set_all (texts words.now) (flat_map numbers_of cells.old)).answer }
    ensures cells { flat_map numbers_of cells.new ≡ (set_all (texts words.now) (flat_map numbers_of cells.old)).numbers }
{
    for word in words {
        let setting: Setting = word.parse()?;
        setting.apply(cells)?;
    }
    Ok(())
}
