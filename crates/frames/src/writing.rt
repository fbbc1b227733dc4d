// Writing a frame.
ghost use Rattle.std.specs.Prelude.{◌≡◌, ◌*◌, ◌/◌, ◌≤◌, length};
ghost use Rattle.cells.specs.declared.cell.Order.TheVariants.{Four};
ghost use Rattle.lineup.specs.Layouts.{block_length_of};
ghost use Rattle.frames.specs.Frames.{block_frame, data_cells, data_order, sending_on};
ghost use Rattle.frames.specs.Laying.{numbers_of};

use crate::channel::Channel;
use crate::laying::{Streams, lay};
use crate::words::encode_words;
use bits::{scramble, spread};
use cells::{Cell, Constellation, Modulation, Order};
use codes::lengths::FixedCode;
use codes::words::SendingCode;
use lineup::layout::Layout;
use modem::{write_mis, write_tis};
use modes::{DataConstellation, Station};

// the bits of the longest block
pub(crate) const MOST_MESSAGE_BITS: usize = 11520;

// the bits of three of the longest data words
pub(crate) const MOST_WORD_BITS: usize = 15360;

// the cells that the longest data words fill
pub(crate) const MOST_DATA_CELLS: usize = 2560;

// The order of a constellation of the data.
pub(crate) fn order_of(constellation: DataConstellation) -> Order
    ensures { result ≡ data_order constellation }
{
    match constellation {
        DataConstellation::Qam4 => Order::Four,
        DataConstellation::Qam16 => Order::Sixteen,
        DataConstellation::Qam64 => Order::SixtyFour,
    }
}

impl<
    M: FixedCode<2, 4>,
    T: FixedCode<9, 29>,
    A: Constellation,
    B: Constellation,
    C: Constellation,
> Channel<M, T, A, B, C> {
    // The cells of the data words of a block.
    fn write_data<D: SendingCode<Symbol = bool>>(
        &self,
        layout: &Layout<'_, D>,
        block: &[u8],
        cells: &mut [Cell],
    )
        requires block { length block.now ≡ block_length_of layout.now.mode (D.SendingCode.message_length layout.now.code.now) }
        requires room { length cells.old ≡ D.SendingCode.word_length layout.now.code.now / 2 }
        ensures { cells.new ≡ data_cells (sending_on M.SendingCode.own T.SendingCode.own D.SendingCode.own A.Constellation.own B.Constellation.own C.Constellation.own self.now layout.now.code.now) layout.now.mode block.now }
    {
        let count = layout.words();
        let mut store = [false; MOST_MESSAGE_BITS];
        let messages = &mut store[..8 * block.len()];
        spread::<8>(block, messages);
        scramble(messages);
        let mut coded = [false; MOST_WORD_BITS];
        let words = &mut coded[..count * layout.code.word_length()];
        encode_words(layout.code, count, messages, words);
        let modulation = Modulation {
            points: &self.data_points,
            order: order_of(layout.mode.data),
        };
        modulation.map_bits(words, cells);
    }

    // Writes the numbers of all cells of a frame, two a cell.
    pub fn write_frame<D: SendingCode<Symbol = bool>>(
        &self,
        layout: &Layout<'_, D>,
        station: Station,
        block: &[u8],
        numbers: &mut [i16],
    )
        requires block { length block.now ≡ block_length_of layout.now.mode (D.SendingCode.message_length layout.now.code.now) }
        requires cells { length numbers.old ≡ 2 * length layout.now.plan.now }
        ensures { numbers.new ≡ numbers_of (block_frame (sending_on M.SendingCode.own T.SendingCode.own D.SendingCode.own A.Constellation.own B.Constellation.own C.Constellation.own self.now layout.now.code.now) layout.now.plan.now layout.now.mode station block.now) }
    {
        let mode = layout.mode;
        let mis = write_mis(&self.mis, &self.mis_points, mode.mis());
        let tis = write_tis(&self.tis, &self.tis_points, mode.tis, mode.tis(station));
        let mut store = [Cell::ORIGIN; MOST_DATA_CELLS];
        let data = &mut store[..layout.data_cells()];
        self.write_data(layout, block, data);
        let streams = Streams {
            mis: &mis.cells,
            tis: &tis.cells,
            data,
        };
        lay(layout.plan, streams, numbers);
    }
}
