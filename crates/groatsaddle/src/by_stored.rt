// A format that is compiled once and run from its stored form, over the C ABI.
ghost use Rattle.std.specs.Prelude.{◌≡◌, length};
ghost use Rattle.rules.specs.Event.{reported, buffer_after};
ghost use Rattle.rules.specs.Stored.{compiled, formatted_stored};
ghost use Rattle.groatsaddle.specs.Entries.{record_from, report_from};

use crate::{GsAnswer, GsRecord, answer_from};

#[tactic(auto, using(crate::proofs::StoredLaws::compiled_small))]
#[unsafe(no_mangle)]
pub extern "C" fn gs_compile(format: &[u8], stored: &mut [u8]) -> GsAnswer
    ensures answer { report_from result ≡ reported (compiled format.now (length stored.old)) }
    ensures stored { stored.new ≡ buffer_after (compiled format.now (length stored.old)) stored.old }
{
    let answer = compiled::compile(format, stored);
    answer_from(answer)
}

#[tactic(auto, using(crate::proofs::StoredLaws::stored_small))]
#[unsafe(no_mangle)]
pub extern "C" fn gs_format_stored(
    stored: &[u8],
    format_length: usize,
    zone: &[u8],
    record: GsRecord,
    buffer: &mut [u8],
) -> GsAnswer
    ensures answer { report_from result ≡ reported (formatted_stored stored.now format_length zone.now (record_from «record») (length buffer.old)) }
    ensures buffer { buffer.new ≡ buffer_after (formatted_stored stored.now format_length zone.now (record_from «record») (length buffer.old)) buffer.old }
{
    let answer = stored::format_stored(stored, format_length, zone, record.into(), buffer);
    answer_from(answer)
}
