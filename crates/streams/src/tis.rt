// The TIS record: 63 bits, of which the last eight check the first 55.
ghost use Rattle.streams.specs.Tis.{length-tis_fields, tis_fields, tis_stated};
ghost use Rattle.std.proofs.Common.{lit≤};

use crate::records::{BadRecord, Record};
use bits::{read_number, write_number};
use modes::{Station, Tis};

impl Record<63> for Tis {
    ghost field_bits = { tis_fields };

    ghost stated = { tis_stated };

    ghost room = { lit≤ tt };

    ghost sized = { length-tis_fields };

    // The numbers, and three reserved bits of zero.
    fn write_fields(self, fields: &mut [bool]) {
        write_number(u32::from(self.coding), &mut fields[0..5]);
        write_number(self.station.station(), &mut fields[5..35]);
        write_number(self.station.hour(), &mut fields[35..40]);
        write_number(self.station.minute(), &mut fields[40..46]);
        write_number(self.station.duration(), &mut fields[46..52]);
        write_number(0, &mut fields[52..55]);
    }

    // A reserved bit of 1 is stated by no sender.
    fn read_fields(fields: &[bool]) -> Result<Self, BadRecord> {
        let reserved = read_number(&fields[52..55]) != 0;
        if reserved {
            return Err(BadRecord);
        }
        let coding = read_number(&fields[0..5]) as u8;
        let station = Station::new(
            read_number(&fields[5..35]),
            read_number(&fields[35..40]),
            read_number(&fields[40..46]),
            read_number(&fields[46..52]),
        )
        .ok_or(BadRecord)?;
        Ok(Tis { coding, station })
    }
}
