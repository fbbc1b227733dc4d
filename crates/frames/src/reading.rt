// Reading a frame.
ghost use Rattle.std.specs.Prelude.{◌≡◌, ◌*◌, ◌≤◌, length, take};
ghost use Rattle.lineup.specs.Layouts.{block_length_of, kind_count, words_of};
ghost use Rattle.frames.specs.Frames.{data_order, sending_on};
ghost use Rattle.cells.specs.Mapping.{decided_bits};
ghost use Rattle.cells.specs.declared.cell.Order.TheVariants.{Four};
ghost use Rattle.lineup.specs.declared.kind.CellKind.TheVariants.{Data as DataKind, Mis as MisKind, Tis as TisKind};
ghost use Rattle.modes.specs.Modes.{tis_count};
ghost use Rattle.modem.specs.MisStream.{MisAnswer};
ghost use Rattle.modem.specs.TisStream.{TisAnswer};
ghost use Rattle.frames.specs.Laying.{cells_in, picked};
ghost use Rattle.frames.specs.Hearing.{HearsMis, HearsTis};
ghost use Rattle.frames.specs.Reading.{BlockAsSent, BlockTold, FrameAnswer, HasFrame, mending_on, ModeAsSent, ModeTold, ReadsSent, StationAsSent, StationTold};
ghost use Rattle.frames.specs.Words.{DataAsSent, DataMended};
ghost use Rattle.frames.specs.Tellings.{told};

use crate::channel::Channel;
use crate::fault::{FrameFault, LostWord};
use crate::received::ReceivedCells;
use crate::words::mend_words;
use crate::writing::{MOST_DATA_CELLS, MOST_MESSAGE_BITS, MOST_WORD_BITS, order_of};
use bits::{cut, scramble};
use cells::{Cell, Constellation, Modulation};
use codes::lengths::FixedCode;
use codes::words::MendingCode;
use lineup::kind::CellKind;
use lineup::layout::Layout;
use lineup::mode::Mode;
use modem::{Reading, StreamFault, read_mis, read_tis};
use modes::{Mis, Station, Tis, TisConstellation};
use packets::{Packet, read_packet};

// The symbols mended in the streams whose codes mend.
#[derive(Clone, Copy, PartialEq, Eq, Debug)]
pub struct Mended {
    pub mis: usize,
    pub tis: usize,
}

// What the cells of a frame state.
#[derive(Clone, Copy)]
pub struct Heard<'a> {
    pub mode: Mode,
    pub station: Station,
    pub packet: Packet<'a>,
    pub mended: Mended,
}

impl<
    M: FixedCode<2, 4> + MendingCode<Symbol = u8>,
    T: FixedCode<9, 29> + MendingCode<Symbol = u8>,
    A: Constellation,
    B: Constellation,
    C: Constellation,
> Channel<M, T, A, B, C> {
    // What the MIS states.
    fn hear_mis(&self, received: ReceivedCells<'_>) -> Result<Reading<Mis>, StreamFault>
        requires { 14 ≤ kind_count MisKind received.plan.now }
        ensures answer { MisAnswer (M.SendingCode.word self.now.mis) (M.MendingCode.reach self.now.mis) (A.Constellation.decided self.now.mis_points Four) (picked MisKind received.entry.plan.now (cells_in received.entry.numbers.now)) result }
        ensures as_sent { HearsMis (M.SendingCode.word self.now.mis) (M.MendingCode.reach self.now.mis) (A.Constellation.point self.now.mis_points Four) (A.Constellation.decided self.now.mis_points Four) (picked MisKind received.entry.plan.now (cells_in received.entry.numbers.now)) result }
    {
        let mut cells = [Cell::ORIGIN; 14];
        received.gather(CellKind::Mis, &mut cells);
        read_mis(&self.mis, &self.mis_points, &cells)
    }

    // What the TIS states.
    fn hear_tis(
        &self,
        constellation: TisConstellation,
        received: ReceivedCells<'_>,
    ) -> Result<Reading<Tis>, StreamFault>
        requires { tis_count constellation ≤ kind_count TisKind received.plan.now }
        ensures answer { TisAnswer (T.SendingCode.word self.now.tis) (T.MendingCode.reach self.now.tis) (B.Constellation.decided self.now.tis_points) constellation (picked TisKind received.entry.plan.now (cells_in received.entry.numbers.now)) result }
        ensures as_sent { HearsTis (T.SendingCode.word self.now.tis) (T.MendingCode.reach self.now.tis) (B.Constellation.point self.now.tis_points) (B.Constellation.decided self.now.tis_points) constellation (picked TisKind received.entry.plan.now (cells_in received.entry.numbers.now)) result }
    {
        let cells = received.tis_cells(constellation);
        read_tis(&self.tis, &self.tis_points, constellation, &cells)
    }

    // The symbols mended in the MIS, which is to state the mode.
    fn read_mode<D: MendingCode<Symbol = bool>>(
        &self,
        layout: &Layout<'_, D>,
        received: ReceivedCells<'_>,
    ) -> Result<usize, FrameFault>
        requires { received.plan.now ≡ layout.now.plan.now }
        ensures told { ModeTold (sending_on M.SendingCode.own T.SendingCode.own D.SendingCode.own A.Constellation.own B.Constellation.own C.Constellation.own self.now layout.now.code.now) (mending_on M.MendingCode.own T.MendingCode.own D.MendingCode.own A.Constellation.own B.Constellation.own C.Constellation.own self.now layout.now.code.now) layout.now.plan.now layout.now.mode (cells_in received.entry.numbers.now) result }
        ensures as_sent { ModeAsSent (sending_on M.SendingCode.own T.SendingCode.own D.SendingCode.own A.Constellation.own B.Constellation.own C.Constellation.own self.now layout.now.code.now) (mending_on M.MendingCode.own T.MendingCode.own D.MendingCode.own A.Constellation.own B.Constellation.own C.Constellation.own self.now layout.now.code.now) layout.now.plan.now layout.now.mode (cells_in received.entry.numbers.now) result }
    {
        let mis = self.hear_mis(received).map_err(FrameFault::Mis)?;
        if mis.stated != layout.mode.mis() {
            return Err(FrameFault::OtherMode(mis.stated));
        }
        Ok(mis.mended)
    }

    // The station that the TIS states, and the symbols mended. It is to state the mode's data coding.
    fn read_station<D: MendingCode<Symbol = bool>>(
        &self,
        layout: &Layout<'_, D>,
        received: ReceivedCells<'_>,
    ) -> Result<Reading<Station>, FrameFault>
        requires { received.plan.now ≡ layout.now.plan.now }
        ensures told { StationTold (sending_on M.SendingCode.own T.SendingCode.own D.SendingCode.own A.Constellation.own B.Constellation.own C.Constellation.own self.now layout.now.code.now) (mending_on M.MendingCode.own T.MendingCode.own D.MendingCode.own A.Constellation.own B.Constellation.own C.Constellation.own self.now layout.now.code.now) layout.now.plan.now layout.now.mode (cells_in received.entry.numbers.now) result }
        ensures as_sent { StationAsSent (sending_on M.SendingCode.own T.SendingCode.own D.SendingCode.own A.Constellation.own B.Constellation.own C.Constellation.own self.now layout.now.code.now) (mending_on M.MendingCode.own T.MendingCode.own D.MendingCode.own A.Constellation.own B.Constellation.own C.Constellation.own self.now layout.now.code.now) layout.now.plan.now layout.now.mode (cells_in received.entry.numbers.now) result }
    {
        let mode = layout.mode;
        let tis = self.hear_tis(mode.tis, received).map_err(FrameFault::Tis)?;
        if tis.stated.coding != mode.coding() {
            return Err(FrameFault::OtherDataCoding);
        }
        Ok(Reading {
            stated: tis.stated.station,
            mended: tis.mended,
        })
    }

    // The bits of the data words.
    fn hear_words<D: MendingCode<Symbol = bool>>(
        &self,
        layout: &Layout<'_, D>,
        received: ReceivedCells<'_>,
        words: &mut [bool],
    )
        requires plan { received.plan.now ≡ layout.now.plan.now }
        requires room { length words.old ≡ words_of layout.now.mode * D.SendingCode.word_length layout.now.code.now }
        ensures { words.new ≡ take (words_of layout.now.mode * D.SendingCode.word_length layout.now.code.now) (decided_bits (C.Constellation.decided self.now.data_points (data_order layout.now.mode.«data»)) (picked DataKind layout.now.plan.now (cells_in received.entry.numbers.now))) }
    {
        let mut store = [Cell::ORIGIN; MOST_DATA_CELLS];
        let cells = &mut store[..layout.data_cells()];
        received.gather(CellKind::Data, cells);
        let modulation = Modulation {
            points: &self.data_points,
            order: order_of(layout.mode.data),
        };
        modulation.decide_bits(cells, words);
    }

    // Mends the messages of the data words, or answers the first one that is beyond reach.
    fn mend_data<D: MendingCode<Symbol = bool>>(
        &self,
        layout: &Layout<'_, D>,
        received: ReceivedCells<'_>,
        messages: &mut [bool],
    ) -> Result<(), LostWord>
        requires plan { received.plan.now ≡ layout.now.plan.now }
        requires room { length messages.old ≡ words_of layout.now.mode * D.SendingCode.message_length layout.now.code.now }
        ensures size { length messages.new ≡ length messages.old }
        ensures as_sent { DataAsSent (D.SendingCode.word layout.now.code.now) (D.MendingCode.reach layout.now.code.now) (D.SendingCode.message_length layout.now.code.now) (D.SendingCode.word_length layout.now.code.now) (words_of layout.now.mode) (decided_bits (C.Constellation.decided self.now.data_points (data_order layout.now.mode.«data»)) (picked DataKind layout.now.plan.now (cells_in received.entry.numbers.now))) messages.new result }
        ensures answer { DataMended (D.SendingCode.word layout.now.code.now) (D.MendingCode.reach layout.now.code.now) (D.SendingCode.message_length layout.now.code.now) (D.SendingCode.word_length layout.now.code.now) (words_of layout.now.mode) (decided_bits (C.Constellation.decided self.now.data_points (data_order layout.now.mode.«data»)) (picked DataKind layout.now.plan.now (cells_in received.entry.numbers.now))) messages.new result }
    {
        let count = layout.words();
        let mut store = [false; MOST_WORD_BITS];
        let words = &mut store[..count * layout.code.word_length()];
        self.hear_words(layout, received, words);
        mend_words(layout.code, count, words, messages)
    }

    // Mends the data words, and writes the block that they carry.
    fn read_block<D: MendingCode<Symbol = bool>>(
        &self,
        layout: &Layout<'_, D>,
        received: ReceivedCells<'_>,
        block: &mut [u8],
    ) -> Result<(), FrameFault>
        requires plan { received.plan.now ≡ layout.now.plan.now }
        requires block { length block.old ≡ block_length_of layout.now.mode (D.SendingCode.message_length layout.now.code.now) }
        ensures told { BlockTold (sending_on M.SendingCode.own T.SendingCode.own D.SendingCode.own A.Constellation.own B.Constellation.own C.Constellation.own self.now layout.now.code.now) (mending_on M.MendingCode.own T.MendingCode.own D.MendingCode.own A.Constellation.own B.Constellation.own C.Constellation.own self.now layout.now.code.now) layout.now.plan.now layout.now.mode (cells_in received.entry.numbers.now) block.new result }
        ensures as_sent { BlockAsSent (sending_on M.SendingCode.own T.SendingCode.own D.SendingCode.own A.Constellation.own B.Constellation.own C.Constellation.own self.now layout.now.code.now) (mending_on M.MendingCode.own T.MendingCode.own D.MendingCode.own A.Constellation.own B.Constellation.own C.Constellation.own self.now layout.now.code.now) layout.now.plan.now layout.now.mode (cells_in received.entry.numbers.now) block.new result }
    {
        let mut bits = [false; MOST_MESSAGE_BITS];
        let messages = &mut bits[..8 * block.len()];
        self.mend_data(layout, received, messages)?;
        scramble(messages);
        cut::<8>(messages, block);
        Ok(())
    }

    // What the cells state, or the first fault that holds. The packet's data stand in `block`, which has the bytes of a frame's block.
    pub fn read_frame<'b, D: MendingCode<Symbol = bool>>(
        &self,
        layout: &Layout<'_, D>,
        received: ReceivedCells<'_>,
        block: &'b mut [u8],
    ) -> Result<Heard<'b>, FrameFault>
        requires plan { received.plan.now ≡ layout.now.plan.now }
        requires block { length block.old ≡ block_length_of layout.now.mode (D.SendingCode.message_length layout.now.code.now) }
        ensures answer { FrameAnswer (sending_on M.SendingCode.own T.SendingCode.own D.SendingCode.own A.Constellation.own B.Constellation.own C.Constellation.own self.now layout.now.code.now) (mending_on M.MendingCode.own T.MendingCode.own D.MendingCode.own A.Constellation.own B.Constellation.own C.Constellation.own self.now layout.now.code.now) layout.now.plan.now layout.now.mode (cells_in received.entry.numbers.now) (told result) }
        ensures reads_sent { ReadsSent (sending_on M.SendingCode.own T.SendingCode.own D.SendingCode.own A.Constellation.own B.Constellation.own C.Constellation.own self.now layout.now.code.now) (mending_on M.MendingCode.own T.MendingCode.own D.MendingCode.own A.Constellation.own B.Constellation.own C.Constellation.own self.now layout.now.code.now) layout.now.plan.now layout.now.mode (cells_in received.entry.numbers.now) (told result) }
        ensures has_frame { HasFrame (sending_on M.SendingCode.own T.SendingCode.own D.SendingCode.own A.Constellation.own B.Constellation.own C.Constellation.own self.now layout.now.code.now) (mending_on M.MendingCode.own T.MendingCode.own D.MendingCode.own A.Constellation.own B.Constellation.own C.Constellation.own self.now layout.now.code.now) layout.now.plan.now layout.now.mode (cells_in received.entry.numbers.now) (told result) }
    {
        let mis = self.read_mode(layout, received)?;
        let tis = self.read_station(layout, received)?;
        self.read_block(layout, received, block)?;
        let packet = read_packet(block)?;
        Ok(Heard {
            mode: layout.mode,
            station: tis.stated,
            packet,
            mended: Mended {
                mis,
                tis: tis.mended,
            },
        })
    }
}
