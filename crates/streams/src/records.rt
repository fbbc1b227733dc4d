// Records of streams: fields, and behind them a check of eight bits over the fields.
ghost use Rattle.streams.specs.Records.{ReadsBits, record_read, with_check};
ghost use Rattle.std.specs.Prelude.{◌≡◌, ◌+◌, ◌-◌, ◌≤◌, Bool, Err, List, Result, length};
ghost use Rattle.streams.specs.declared.records.BadRecord.{BadRecord as BadRecordType};

use bits::{crc8, read_number, write_number};
use modes::UnknownNumber;

// A record that no sender makes.
#[derive(Clone, Copy, PartialEq, Eq, Debug)]
pub struct BadRecord;

impl From<UnknownNumber> for BadRecord {
    ghost from_gives = { λ _ r. r ≡ record {} };

    fn from(_unknown: UnknownNumber) -> BadRecord {
        BadRecord
    }
}

// What a stream states in a record of so many bits, of which the last eight are the check.
pub trait Record<const BITS: usize>: Copy {
    // the bits before the check
    ghost field_bits: { Self → List Bool };

    // what such bits state
    ghost stated: { List Bool → Result Self BadRecordType };

    // Writes the bits before the check, which tell apart what is stated.
    fn write_fields(self, fields: &mut [bool])
        requires { length fields.old + 8 ≡ BITS }
        ensures value { fields.new ≡ field_bits self }
        ensures apart { (other : Self) → field_bits other ≡ field_bits self → other ≡ self };

    // What the bits before the check state.
    fn read_fields(fields: &[bool]) -> Result<Self, BadRecord>
        requires { length fields.now + 8 ≡ BITS }
        ensures value { result ≡ stated fields.now }
        ensures exactly { ReadsBits field_bits fields.now result };

    ghost room: { 8 ≤ BITS };

    ghost sized: { (x : Self) → length (field_bits x) + 8 ≡ BITS };
}

// The record that states what is given.
pub fn write_record<R: Record<BITS>, const BITS: usize>(stated: R) -> [bool; BITS]
    ensures value { result ≡ with_check (R.field_bits stated) }
    ensures apart { (other : R) → R.field_bits other ≡ R.field_bits stated → other ≡ stated }
{
    let mut record = [false; BITS];
    let bits = &mut record[..];
    stated.write_fields(&mut bits[..BITS - 8]);
    let check = crc8(&bits[..BITS - 8]);
    write_number(u32::from(check), &mut bits[BITS - 8..]);
    record
}

// What a record states.
pub fn read_record<R: Record<BITS>, const BITS: usize>(bits: &[bool; BITS]) -> Result<R, BadRecord>
    ensures value { result ≡ record_read (BITS - 8) R.stated bits.now }
    ensures exactly { ReadsBits (λ (r : R). with_check (R.field_bits r)) bits.now result }
{
    let (fields, check) = bits.split_at(BITS - 8);
    if read_number(check) != u32::from(crc8(fields)) {
        return Err(BadRecord);
    }
    R::read_fields(fields)
}
