//! Lowers the query that standard input gives, and prints a report of its typed plan.
#![tactic(auto)]

ghost use Rattle.std.specs.Prelude.{◌≡◌, IfOk, map, drop, string_bytes};
ghost use Rattle.std.specs.Str.{chars};
ghost use Rattle.std.specs.Vec.Iter.{into_iter_items};

use byte_streams::sink::WriteAdapter;
use byte_streams::source::ReadAdapter;
use plan_dsl::udfs::Udfs;
use plan_types::text::PlSmallStr;
use query_run::run::run;
use query_run::status::Status;
use std::alloc::{AllocError, Global};
use std::env::{self, Args};
use std::io::ErrorKind;
use std::process::ExitCode;

fn main(rt: HostRuntime) -> ExitCode {
    let alloc = rt.alloc();
    let words = match env::args(&rt) {
        Ok(arguments) => words_of(alloc, arguments),
        Err(error) if error.kind() == ErrorKind::OutOfMemory => Err(AllocError),
        // An argument that isn't UTF-8 is no word of any form.
        Err(_) => Ok(Vec::new(alloc)),
    };
    let Ok(words) = words else {
        return Status::NoMemory.exit_code();
    };
    let mut source = ReadAdapter::new(rt.stdin());
    let mut sink = WriteAdapter::new(rt.stdout());
    let udfs = Udfs::new(alloc);
    run(alloc, words.as_slice(), &mut source, &mut sink, &udfs).exit_code()
}

// The arguments behind the program's name.
fn words_of(alloc: Global, mut arguments: Args) -> Result<Vec<PlSmallStr>, AllocError>
    ensures { IfOk result (λ words. words.items ≡ map (λ argument. chars (string_bytes argument)) (drop 1 (into_iter_items arguments))) }
{
    let _program = arguments.next();
    let mut words = Vec::new(alloc);
    for argument in arguments {
        let Ok(word) = PlSmallStr::new(alloc, argument.as_str()) else {
            return Err(AllocError);
        };
        words.push(word)?;
    }
    Ok(words)
}
