//! Runs the cases of the files that its words name, and tells each that ends otherwise than it says.
#![tactic(auto)]

mod case;
mod trial;

use case::{Case, Found, next_case};
use plan_dsl::udfs::Udfs;
use std::env::Env;
use std::process::ExitCode;
use std::rt::Files;
use std::{env, fs, io};
use trial::{Seen, difference};

fn main(rt: HostRuntime) -> ExitCode {
    match try_files(&rt) {
        Ok(true) => ExitCode::SUCCESS,
        Ok(false) => ExitCode::FAILURE,
        Err(error) => {
            // Where standard error fails too, nobody is left to be told.
            let _told = rt.eprintln(error);
            ExitCode::FAILURE
        }
    }
}

// Tries the files that the words name. Whether each case of each ends as it says.
fn try_files<R: Env + Files + AllocGlobal + Print>(rt: &R) -> io::Result<bool> {
    let mut all_right = true;
    for name in env::args(rt)?.skip(1) {
        let is_right = try_file(rt, name.as_str())?;
        all_right = all_right && is_right;
    }
    Ok(all_right)
}

// Tries the cases of a file, and prints their number and each difference.
fn try_file<R: Files + AllocGlobal + Print>(rt: &R, name: &str) -> io::Result<bool> {
    let Ok(bytes) = fs::read(rt, name) else {
        println!(rt; "{name}: can't be read")?;
        return Ok(false);
    };
    let udfs = Udfs::new(rt.alloc());
    let mut rest = bytes.as_slice();
    let mut is_right = true;
    for number in 1..u64::MAX {
        match next_case(rt.alloc(), rest)? {
            Found::Case(case, after) => {
                rest = after;
                let as_wanted = try_case(rt, name, number, &case, &udfs)?;
                is_right = is_right && as_wanted;
            }
            Found::End => {
                let count = number - 1;
                println!(rt; "{name}: {count} cases")?;
                break;
            }
            Found::Malformed => {
                println!(rt; "{name}: case {number} isn't in the form of a case")?;
                is_right = false;
                break;
            }
        }
    }
    Ok(is_right)
}

// Tries one case, and prints how it differs.
fn try_case<R: AllocGlobal + Print>(
    rt: &R,
    name: &str,
    number: u64,
    case: &Case<'_>,
    udfs: &Udfs,
) -> io::Result<bool> {
    match difference(rt.alloc(), case, udfs)? {
        None => Ok(true),
        Some(seen) => {
            println!(rt; "{name}: case {number}")?;
            print_difference(&mut io::writer(rt), case, &seen)?;
            Ok(false)
        }
    }
}

// Prints what the case shows, the status and text that are wanted, and those that came.
fn print_difference<W: io::Write>(out: &mut W, case: &Case<'_>, seen: &Seen) -> io::Result<()> {
    let wanted = case.status;
    let found = seen.status;
    out.write_all(case.shows)?;
    writeln!(out, "\nwanted {wanted}")?;
    out.write_all(case.text)?;
    writeln!(out, "found {found}")?;
    out.write_all(seen.text.as_slice())?;
    Ok(())
}
