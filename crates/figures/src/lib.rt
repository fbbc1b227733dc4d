// The printed figures by one proof, and outside figures as tests.
#![tactic(auto)]

ghost use Rattle.std.specs.Prelude.{◌≡◌, ◌<◌};
ghost use Rattle.cells.specs.Qam.{qam_point};
ghost use Rattle.cells.specs.declared.cell.Order.TheVariants.{Four};
ghost use Rattle.bits.specs.Scrambling.{scrambled};
ghost use Rattle.streams.specs.Mis.{mis_record};
ghost use Rattle.modem.specs.MisStream.{mis_message, mis_trace};
ghost use Rattle.modem.specs.TisStream.{tis_message};
ghost use Rattle.codes.specs.Symbols.{bit_number, differing};
ghost use Rattle.figures.specs.Printed.{mis_word, Printed, tis_word, zero_mis};

use cells::Qam;
use codes::symbols::count_differing;
use modem::{MisTrace, write_mis, write_tis};
use modes::{DataConstellation, Mis, Occupancy, Tis, TisConstellation};
use reed_solomon::streams::{MisReedSolomon, TisReedSolomon};

#[cfg(test)]
mod checks;
#[cfg(test)]
mod neighbours;
#[cfg(test)]
mod notice;
#[cfg(test)]
mod rows;
#[cfg(test)]
mod words;

// The MIS that is printed step by step. That the printed figures hold of the definitions is shown with it, all by one proof.
pub fn printed_mis() -> MisTrace
    ensures steps { result ≡ mis_trace mis_word (qam_point Four) zero_mis }
    ensures printed { Printed }
{
    let mis = Mis {
        occupancy: Occupancy::Khz1,
        tis: TisConstellation::Qam4,
        data: DataConstellation::Qam4,
    };
    write_mis(&MisReedSolomon::default(), &Qam, mis)
}

// In how many of 29 symbols the words of two TIS differ by RS(29,9), whatever the constellation: in at least 21, unless they state the same.
pub fn tis_differing(one: Tis, other: Tis) -> usize
    ensures count { result ≡ differing (λ x. x) (tis_word (tis_message one)) (tis_word (tis_message other)) }
    ensures apart { result < 21 → other ≡ one }
{
    let code = TisReedSolomon::default();
    let first = write_tis(&code, &Qam, TisConstellation::Qam4, one);
    let second = write_tis(&code, &Qam, TisConstellation::Qam4, other);
    count_differing(&first.word, &second.word)
}

// In how many places two MIS differ.
#[derive(Clone, Copy, PartialEq, Eq, Debug)]
pub struct MisDiffering {
    // of the 14 scrambled bits
    pub bits: usize,
    // of the four symbols of the words by RS(4,2)
    pub symbols: usize,
}

// In how many bits and symbols two MIS differ: in at least 3 symbols, unless they state the same.
pub fn mis_differing(one: Mis, other: Mis) -> MisDiffering
    ensures bits { result.bits ≡ differing bit_number (scrambled 0 (mis_record one)) (scrambled 0 (mis_record other)) }
    ensures symbols { result.symbols ≡ differing (λ x. x) (mis_word (mis_message one)) (mis_word (mis_message other)) }
    ensures apart { result.symbols < 3 → other ≡ one }
{
    let code = MisReedSolomon::default();
    let first = write_mis(&code, &Qam, one);
    let second = write_mis(&code, &Qam, other);
    MisDiffering {
        bits: count_differing(&first.scrambled, &second.scrambled),
        symbols: count_differing(&first.word, &second.word),
    }
}
