// A format that arrives in runs, over the C ABI.
ghost use Rattle.std.specs.Prelude.{◌≡◌};
ghost use Rattle.rules.specs.Runs.{bring, close, progressed, held, said_in, begun, held_after};
ghost use Rattle.groatsaddle.specs.Entries.{record_from};
ghost use Rattle.groatsaddle.specs.Runs.{runs_from, runs_to, progress_to, gs_held, held_to};

use crate::GsRecord;
use rules::{Progress, Runs};

// `over` is a byte, since a C caller can put anything there: 0 is no, all else is yes.
#[repr(C)]
#[derive(Clone, Copy)]
pub struct GsRuns {
    pub total: usize,
    pub passed: usize,
    pub kept: usize,
    pub written: usize,
    pub number: usize,
    pub over: u8,
}

#[repr(C)]
#[derive(Clone, Copy)]
pub struct GsProgress {
    pub refusal: u32,
    pub more: u8,
    pub length: usize,
}

impl From<GsRuns> for Runs {
    ghost from_gives = { λ given taken. taken ≡ runs_from given };

    #[tactic(auto, unfolding(crate::specs::Runs::runs_from))]
    fn from(s: GsRuns) -> Runs {
        Runs {
            total: s.total,
            passed: s.passed,
            kept: s.kept,
            written: s.written,
            number: s.number,
            over: s.over != 0,
        }
    }
}

impl From<Runs> for GsRuns {
    ghost from_gives = { λ made given. given ≡ runs_to made };

    #[tactic(auto, unfolding(crate::specs::Runs::runs_to), using(crate::proofs::Laws::byte_is))]
    fn from(s: Runs) -> GsRuns {
        GsRuns {
            total: s.total,
            passed: s.passed,
            kept: s.kept,
            written: s.written,
            number: s.number,
            over: s.over as u8,
        }
    }
}

impl From<Progress> for GsProgress {
    ghost from_gives = { λ progress given. given ≡ progress_to (progressed progress) };

    #[tactic(auto, unfolding(crate::specs::Runs::progress_to, rules::specs::Runs::progressed))]
    fn from(progress: Progress) -> GsProgress {
        match progress {
            Progress::More => GsProgress {
                refusal: 0,
                more: 1,
                length: 0,
            },
            Progress::Done(length) => GsProgress {
                refusal: 0,
                more: 0,
                length,
            },
            Progress::Refused(refusal) => GsProgress {
                refusal: u32::from(refusal),
                more: 0,
                length: 0,
            },
        }
    }
}

#[unsafe(no_mangle)]
pub extern "C" fn gs_runs_start(total: usize, zone: &[u8], store: &[u8], buffer: &[u8]) -> GsRuns
    ensures { result ≡ runs_to (begun total zone.now store.now buffer.now).numbers }
{
    runs::start(total, zone, store, buffer).into()
}

#[unsafe(no_mangle)]
pub extern "C" fn gs_runs_run(
    runs: GsRuns,
    bytes: &[u8],
    zone: &[u8],
    record: GsRecord,
    store: &mut [u8],
    buffer: &mut [u8],
) -> GsRuns
    ensures { gs_held result store.new buffer.new ≡ held_to (held_after zone.now (record_from «record») (held (runs_from runs) store.old buffer.old) (bring bytes.now)) }
{
    runs::run(runs.into(), bytes, zone, record.into(), store, buffer).into()
}

#[unsafe(no_mangle)]
pub extern "C" fn gs_runs_end(
    runs: GsRuns,
    zone: &[u8],
    record: GsRecord,
    store: &[u8],
    buffer: &mut [u8],
) -> GsRuns
    ensures { gs_held result store.now buffer.new ≡ held_to (held_after zone.now (record_from «record») (held (runs_from runs) store.now buffer.old) close) }
{
    runs::end(runs.into(), zone, record.into(), store, buffer).into()
}

// What the last call answered.
#[unsafe(no_mangle)]
pub extern "C" fn gs_runs_answer(runs: GsRuns) -> GsProgress
    ensures { result ≡ progress_to (said_in (runs_from runs)) }
{
    runs::answer_of(runs.into()).into()
}
