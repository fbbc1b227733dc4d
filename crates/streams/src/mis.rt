// The MIS record: 14 bits, of which the last eight check the first six.
ghost use Rattle.streams.specs.Mis.{length-mis_fields, mis_fields, mis_stated};
ghost use Rattle.std.proofs.Common.{lit≤};

use crate::records::{BadRecord, Record};
use bits::{read_number, write_number};
use modes::{DataConstellation, Mis, Occupancy, TisConstellation};

impl Record<14> for Mis {
    ghost field_bits = { mis_fields };

    ghost stated = { mis_stated };

    ghost room = { lit≤ tt };

    ghost sized = { length-mis_fields };

    // The numbers, and a fill of zero.
    fn write_fields(self, fields: &mut [bool]) {
        write_number(u32::from(u8::from(self.occupancy)), &mut fields[0..2]);
        write_number(u32::from(u8::from(self.tis)), &mut fields[2..3]);
        write_number(u32::from(u8::from(self.data)), &mut fields[3..5]);
        write_number(0, &mut fields[5..6]);
    }

    // A fill of 1 and the data constellation 3 are stated by no sender.
    fn read_fields(fields: &[bool]) -> Result<Self, BadRecord> {
        let filled = read_number(&fields[5..6]) == 1;
        if filled {
            return Err(BadRecord);
        }
        Ok(Mis {
            occupancy: Occupancy::try_from(read_number(&fields[0..2]))?,
            tis: TisConstellation::try_from(read_number(&fields[2..3]))?,
            data: DataConstellation::try_from(read_number(&fields[3..5]))?,
        })
    }
}
