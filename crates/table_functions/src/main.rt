//! Runs functions on a small table: a row index, explodes, a rename, an unpivot and an unnest. Of each it prints the frame that
//! it makes, column by column, or why there is none.
#![tactic(auto)]

mod functions;
mod runs;
mod table;
mod texts;

use functions::functions;
use plan_dsl::udfs::Udfs;
use runs::told;
use table::table;

fn main(rt: HostRuntime) -> anyhow::Result<()> {
    let alloc = rt.alloc();
    let udfs = Udfs::new(alloc);
    for (words, function) in functions(alloc)? {
        rt.println(words)?;
        let text = told(alloc, &function, table(alloc)?, &udfs)?;
        rt.print(text.as_str())?;
    }
    Ok(())
}
