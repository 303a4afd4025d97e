//! The library that C, and what calls like C, links: from the bytes of a query to the text of its answer.
#![tactic(auto)]

mod examples;

ghost use Rattle.std.specs.Prelude.{◌≡◌, [], ◌∷◌, Some, Contains, length, drop};
ghost use Rattle.query_run.specs.Answers.{right_words};
ghost use Rattle.query_run.specs.Endings.{BadQueryCalledFor, IsComplete, RefusalCalledFor, TooLongCalledFor};
ghost use Rattle.lowerq_c.specs.Calls.{Hands, IsCallEnd, IsComplaint, IsLimitText, IsNumberWhere, IsRefusal, IsReport, no_functions, overwritten};

use plan_dsl::udfs::Udfs;
use query_run::text::{Told, run_to_text};
use std::alloc::Global;

/// Lowers the query, as the program `lowerq` does for its word `lower`. It puts the front of the answer's text into the
/// buffer, as much as fits, and the length of the whole text into `written`, so that the caller can try again with more
/// room. It returns the number of the status, and keeps nothing that it was given.
///
/// C gives a slice as a pointer that isn't null and a length, and none of the three may overlap another.
#[unsafe(no_mangle)]
pub extern "C" fn lowerq_lower(
    alloc: Global,
    query: &[u8],
    buffer: &mut [u8],
    written: &mut usize,
) -> u8
    // What is handed out. Behind the text the buffer is as it was.
    ensures whole { Hands (IsCallEnd query.now result) buffer.old buffer.new written.new }
    ensures size { length buffer.new ≡ length buffer.old }
    ensures rest { drop written.new buffer.new ≡ drop written.new buffer.old }

    // What each number says. No other comes.
    ensures numbers { Contains (0 ∷ 1 ∷ 3 ∷ 6 ∷ 7 ∷ []) result }
    ensures lowered { result ≡ 0 → Hands (IsReport query.now) buffer.old buffer.new written.new }
    ensures refused { result ≡ 1 → Hands (IsRefusal query.now) buffer.old buffer.new written.new }
    ensures bad_query { result ≡ 3 → Hands (IsComplaint query.now) buffer.old buffer.new written.new }
    ensures no_memory { result ≡ 6 → (written.new ≡ 0) × (buffer.new ≡ buffer.old) }
    ensures too_long { result ≡ 7 → Hands (IsLimitText query.now) buffer.old buffer.new written.new }

    // Which number is called for, where memory doesn't run out.
    ensures too_long_where { IsNumberWhere (TooLongCalledFor right_words (Some query.now)) result }
    ensures bad_query_where { IsNumberWhere (BadQueryCalledFor right_words (Some query.now)) result }
    ensures refused_where { IsNumberWhere (RefusalCalledFor no_functions right_words (Some query.now)) result }
    ensures complete { IsNumberWhere (IsComplete no_functions right_words (Some query.now)) result }
{
    let Told { done, text } = run_to_text(alloc, query, &Udfs::new(alloc));
    *written = text.len();
    put_front(text.as_slice(), buffer);
    done.number()
}

// Puts the front of a text into a buffer, as much as fits, and leaves the rest of the buffer.
fn put_front(text: &[u8], buffer: &mut [u8])
    ensures { buffer.new ≡ overwritten text.now buffer.old }
{
    let count = text.len().min(buffer.len());
    buffer[..count].copy_from_slice(&text[..count]);
}
