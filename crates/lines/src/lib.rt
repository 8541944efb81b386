// Added to the original: reads the stored list of its answers. tests/compare/README.md has the form of a line.
#![tactic(auto)]

mod reader;
mod record;
mod text;

ghost use Rattle.std.specs.Prelude.{length, IfSome};
ghost use Rattle.lines.specs.Within.{AnswerWithin, CaseWithin};

use reader::Reader;
use rules::{Record, Refusal};

// The numbers of bytes are those that were put at the starts of the lent buffers, and so is that of an answer, for its text.
// No slices: the buffers are lent again for the next line.
#[derive(Clone, Copy)]
pub struct Case {
    pub format: usize,
    pub zone: usize,
    pub room: usize,
    pub record: Record,
    pub answer: Result<usize, Refusal>,
}

// ANSWER, and TEXT where it is 0. The line ends there.
#[tactic(auto, unfolding(rules::specs::Refusal::numbered, rules::specs::Refusal::number_of, rules::specs::Refusal::refusal_with))]
fn read_answer(mut reader: Reader, text: &mut [u8]) -> Option<Result<usize, Refusal>>
    ensures { IfSome result (AnswerWithin (length text.old)) }
{
    let answer = match reader.number(4)? {
        0 => Ok(reader.field(text)?),
        number => Err(Refusal::try_from(number as usize).ok()?),
    };
    if !reader.rest.is_empty() {
        return None;
    }
    Some(answer)
}

#[tactic(auto, unfolding(rules::specs::Refusal::numbered))]
pub fn read_line(line: &[u8], format: &mut [u8], zone: &mut [u8], text: &mut [u8]) -> Option<Case>
    ensures { IfSome result (CaseWithin (length format.old) (length zone.old) (length text.old)) }
{
    let mut reader = Reader { rest: line };
    let format_count = reader.text(format)?;
    let zone_count = reader.field(zone)?;
    let room = reader.number(65536)? as usize;
    let record = reader.record()?;
    let answer = read_answer(reader, text)?;
    if answer.is_ok_and(|count| room < count) {
        return None;
    }
    Some(Case {
        format: format_count,
        zone: zone_count,
        room,
        record,
        answer,
    })
}
