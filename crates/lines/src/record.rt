// The fields of a record, as a line has them.
use crate::reader::Reader;
use rules::Record;

impl Reader<'_> {
    pub fn record(&mut self) -> Option<Record> {
        Some(Record {
            year: self.signed(2147483647)? as i32,
            month: self.number(255)? as u8,
            day: self.number(255)? as u8,
            hour: self.number(255)? as u8,
            minute: self.number(255)? as u8,
            second: self.number(255)? as u8,
            nanoseconds: self.number(4294967295)? as u32,
            day_of_week: self.number(255)? as u8,
            day_of_year: self.number(65535)? as u16,
            to_int: self.signed(9223372036854775807)?,
            is_utc: self.number(1)? == 1,
            utc_offset: self.signed(2147483647)? as i32,
        })
    }
}
