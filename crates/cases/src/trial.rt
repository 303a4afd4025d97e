//! Runs of a case.
ghost use Rattle.std.specs.Prelude.{◌≡◌, ◌<◌, ◌∷◌, [], None, IfOk};
ghost use Rattle.std.specs.Bool.{Decides};
ghost use Rattle.plan_dsl.specs.Registry.{registry};
ghost use Rattle.cases.specs.Cases.{EndsWith};

use crate::case::Case;
use byte_streams::sink::{MemSink, PlainSink};
use byte_streams::source::{MemSource, PlainSource};
use plan_dsl::udfs::Udfs;
use query_run::run::{run, run_in_memory};
use std::alloc::{AllocError, Global};

/// How a run ended.
#[derive(Drop)]
pub(crate) struct Seen {
    pub(crate) status: u8,
    pub(crate) text: Vec<u8>,
}

// Room for a text beyond the one that is wanted.
const ROOM: usize = 1 << 16;

/// Runs the case with whole reads and writes, with those of 1 byte and with those of 7, and each of these
/// twice. The answer is the first end that isn't the wanted one.
pub(crate) fn difference(
    alloc: Global,
    case: &Case<'_>,
    udfs: &Udfs,
) -> Result<Option<Seen>, AllocError>
    ensures { IfOk result (λ seen. seen ≡ None
        → EndsWith (registry udfs.now) case.now.words.items case.now.input.now case.now.status case.now.text.now) }
{
    for step in [1, 7, 1, 7] {
        let seen = run_in_steps(alloc, case, step, udfs)?;
        if !is_wanted(case, &seen) {
            return Ok(Some(seen));
        }
    }
    let seen = run_whole(alloc, case, udfs)?;
    if !is_wanted(case, &seen) {
        return Ok(Some(seen));
    }
    let again = run_whole(alloc, case, udfs)?;
    if is_wanted(case, &again) {
        Ok(None)
    } else {
        Ok(Some(again))
    }
}

// Whether a run ended as the case says.
fn is_wanted(case: &Case<'_>, seen: &Seen) -> bool
    ensures { Decides result ((seen.now.status ≡ case.now.status) × (seen.now.text.items ≡ case.now.text.now)) }
{
    seen.status == case.status && seen.text.as_slice() == case.text
}

fn run_whole(alloc: Global, case: &Case<'_>, udfs: &Udfs) -> Result<Seen, AllocError>
    ensures { IfOk result (λ seen. EndsWith (registry udfs.now) case.now.words.items case.now.input.now seen.status seen.text.items) }
{
    let mut source = PlainSource::new(case.input);
    let mut sink = PlainSink::new(alloc, room_for(case))?;
    let status = run_in_memory(alloc, case.words.as_slice(), &mut source, &mut sink, udfs).number();
    let text = sink.written().to_vec(alloc)?;
    Ok(Seen { status, text })
}

fn run_in_steps(
    alloc: Global,
    case: &Case<'_>,
    step: usize,
    udfs: &Udfs,
) -> Result<Seen, AllocError>
    requires { 0 < step }
    ensures { IfOk result (λ seen. EndsWith (registry udfs.now) case.now.words.items case.now.input.now seen.status seen.text.items) }
{
    let mut source = MemSource::new(case.input, Vec::new(alloc)).in_steps(step);
    let mut sink = MemSink::new(alloc, room_for(case), Vec::new(alloc))?.in_steps(step);
    let status = run(alloc, case.words.as_slice(), &mut source, &mut sink, udfs).number();
    let text = sink.written().to_vec(alloc)?;
    Ok(Seen { status, text })
}

fn room_for(case: &Case<'_>) -> usize {
    case.text.len().saturating_add(ROOM)
}
