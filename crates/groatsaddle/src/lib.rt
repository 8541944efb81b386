// The entries over the C ABI: lib.rs of the original, sizing, a record from a count and back, a format in runs, and a compiled format.
// `include/groatsaddle.h` declares them.
#![tactic(auto)]

mod by_runs;
mod by_stored;

ghost use Rattle.std.specs.Prelude.{◌≡◌, ◌≤◌, length};
ghost use Rattle.rules.specs.Record.{longest_buffer};
ghost use Rattle.rules.specs.Event.{reported, buffer_after};
ghost use Rattle.rules.specs.Format.{formatted};
ghost use Rattle.rules.specs.Refusal.{numbered};
ghost use Rattle.rules.specs.Counter.{dated_reply, counted_reply};
ghost use Rattle.rules.specs.Size.{AnyStamp, GoodStamp, Sizing};
ghost use Rattle.longest.specs.Witness.{size_of};
ghost use Rattle.groatsaddle.specs.Entries.{record_from, report_from, record_to, dated_to, counted_to, GsDatedBy, GsCountedBy};

pub use by_runs::{gs_runs_answer, gs_runs_end, gs_runs_run, gs_runs_start};
pub use by_stored::{gs_compile, gs_format_stored};
use rules::{Record, Refusal};

// `is_utc` is a byte, since a C caller can put anything there: 0 is no, all else is yes.
#[repr(C)]
#[derive(Clone, Copy, Default)]
pub struct GsRecord {
    pub year: i32,
    pub month: u8,
    pub day: u8,
    pub hour: u8,
    pub minute: u8,
    pub second: u8,
    pub nanoseconds: u32,
    pub day_of_week: u8,
    pub day_of_year: u16,
    pub to_int: i64,
    pub is_utc: u8,
    pub utc_offset: i32,
}

#[repr(C)]
#[derive(Clone, Copy)]
pub struct GsAnswer {
    pub refusal: u32,
    pub length: u32,
}

#[repr(C)]
#[derive(Clone, Copy)]
pub struct GsDated {
    pub refusal: u32,
    pub record: GsRecord,
}

#[repr(C)]
#[derive(Clone, Copy)]
pub struct GsCounted {
    pub refusal: u32,
    pub count: i64,
}

impl From<GsRecord> for Record {
    ghost from_gives = { λ given taken. taken ≡ record_from given };

    #[tactic(auto, unfolding(crate::specs::Entries::record_from))]
    fn from(r: GsRecord) -> Record {
        Record {
            year: r.year,
            month: r.month,
            day: r.day,
            hour: r.hour,
            minute: r.minute,
            second: r.second,
            nanoseconds: r.nanoseconds,
            day_of_week: r.day_of_week,
            day_of_year: r.day_of_year,
            to_int: r.to_int,
            is_utc: r.is_utc != 0,
            utc_offset: r.utc_offset,
        }
    }
}

impl From<Record> for GsRecord {
    ghost from_gives = { λ made given. given ≡ record_to made };

    #[tactic(auto, unfolding(crate::specs::Entries::record_to), using(crate::proofs::Laws::byte_is))]
    fn from(r: Record) -> GsRecord {
        GsRecord {
            year: r.year,
            month: r.month,
            day: r.day,
            hour: r.hour,
            minute: r.minute,
            second: r.second,
            nanoseconds: r.nanoseconds,
            day_of_week: r.day_of_week,
            day_of_year: r.day_of_year,
            to_int: r.to_int,
            is_utc: r.is_utc as u8,
            utc_offset: r.utc_offset,
        }
    }
}

// No `From`, which can't ask that the length fits a `u32`.
#[tactic(auto, unfolding(crate::specs::Entries::report_from, rules::specs::Refusal::numbered))]
fn answer_from(answer: Result<usize, Refusal>) -> GsAnswer
    requires { (numbered answer).bytes ≤ longest_buffer }
    ensures { report_from result ≡ numbered answer }
{
    match answer {
        Ok(length) => GsAnswer {
            refusal: 0,
            length: length as u32,
        },
        Err(refusal) => GsAnswer {
            refusal: u32::from(refusal),
            length: 0,
        },
    }
}

impl From<Result<Record, Refusal>> for GsDated {
    ghost from_gives = { λ dated given. given ≡ dated_to (dated_reply dated) };

    #[tactic(auto, unfolding(crate::specs::Entries::dated_to, rules::specs::Counter::dated_reply))]
    fn from(dated: Result<Record, Refusal>) -> GsDated {
        match dated {
            Ok(made) => GsDated {
                refusal: 0,
                record: GsRecord::from(made),
            },
            Err(refusal) => GsDated {
                refusal: u32::from(refusal),
                record: GsRecord::default(),
            },
        }
    }
}

impl From<Result<i64, Refusal>> for GsCounted {
    ghost from_gives = { λ counted given. given ≡ counted_to (counted_reply counted) };

    #[tactic(auto, unfolding(crate::specs::Entries::counted_to, rules::specs::Counter::counted_reply))]
    fn from(counted: Result<i64, Refusal>) -> GsCounted {
        match counted {
            Ok(count) => GsCounted { refusal: 0, count },
            Err(refusal) => GsCounted {
                refusal: u32::from(refusal),
                count: 0,
            },
        }
    }
}

#[tactic(auto, using(crate::proofs::Laws::report_small))]
#[unsafe(no_mangle)]
pub extern "C" fn gs_format(
    format: &[u8],
    zone: &[u8],
    record: GsRecord,
    buffer: &mut [u8],
) -> GsAnswer
    ensures answer { report_from result ≡ reported (formatted format.now zone.now (record_from «record») (length buffer.old)) }
    ensures buffer { buffer.new ≡ buffer_after (formatted format.now zone.now (record_from «record») (length buffer.old)) buffer.old }
{
    let answer = strftime::format(format, zone, record.into(), buffer);
    answer_from(answer)
}

#[tactic(auto, using(sizing::proofs::EntryLaws::size_small))]
#[unsafe(no_mangle)]
pub extern "C" fn gs_size(format: &[u8], longest_zone: usize) -> GsAnswer
    ensures answer { report_from result ≡ size_of format.now longest_zone }
    ensures demand { Sizing (AnyStamp longest_zone) (GoodStamp longest_zone) format.now longest_zone (report_from result) }
{
    let answer = sizing::size(format, longest_zone);
    answer_from(answer)
}

#[unsafe(no_mangle)]
pub extern "C" fn gs_record_from_count(
    count: i64,
    utc_offset: i32,
    nanoseconds: u32,
    is_utc: u8,
) -> GsDated
    ensures { GsDatedBy count utc_offset nanoseconds is_utc result }
{
    calendar::record_from_count(count, utc_offset, nanoseconds, is_utc != 0).into()
}

#[unsafe(no_mangle)]
pub extern "C" fn gs_count_from_record(record: GsRecord) -> GsCounted
    ensures { GsCountedBy «record» result }
{
    calendar::count_from_record(record.into()).into()
}
