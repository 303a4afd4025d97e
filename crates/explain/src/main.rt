//! Explains queries. Of a well-formed one it prints the lowered plan, with the expressions of each node; of any other which
//! rule is broken, where, and by what. Without words standard input is one query, and with the word `lines` a query stands
//! on each line. It ends with 0 where all queries are well formed, else with 1.
#![tactic(auto)]

mod answers;
mod check;
mod fault;
mod lowered;

use answers::Verdict;
use plan_dsl::udfs::Udfs;
use std::env;
use std::io::Read;
use std::process::ExitCode;

fn main(rt: HostRuntime) -> anyhow::Result<ExitCode> {
    let udfs = Udfs::new(rt.alloc());
    let mut words = env::args(&rt)?;
    let _program = words.next();
    let (word, more) = (words.next(), words.next());
    let mut all_typed = true;
    match (&word, &more) {
        (None, _) => {
            let mut query = Vec::new(rt.alloc());
            rt.stdin().read_to_end(&mut query)?;
            all_typed = explain(&rt, query.as_slice(), &udfs)?;
        }
        (Some(word), None) if word.as_str() == "lines" => {
            for line in rt.lines(rt.alloc()) {
                all_typed = explain(&rt, line?.as_bytes(), &udfs)? && all_typed;
            }
        }
        _ => {
            rt.println("usage: explain, or explain lines")?;
            all_typed = false;
        }
    }
    Ok(ExitCode::from(u8::from(!all_typed)))
}

// Prints the verdict on a query, with what is noted behind each line of a report, and answers whether it is well formed.
fn explain(rt: &HostRuntime, query: &[u8], udfs: &Udfs) -> anyhow::Result<bool> {
    match check::check(rt.alloc(), query, udfs)? {
        Verdict::Typed { report, notes } => {
            for (number, line) in report.lines().enumerate() {
                rt.println(line)?;
                if let Some(note) = notes.get(number) {
                    rt.print(note.as_str())?;
                }
            }
            Ok(true)
        }
        Verdict::Broken { words, detail } => {
            rt.print(words.as_str())?;
            rt.print(detail.as_str())?;
            Ok(false)
        }
    }
}
