// cutlist: reads a cutting list from standard input and prints the least number of bars that is known to be needed.
#![tactic(auto)]

use std::io::Read;
use std::process::ExitCode;
use text::answer;

// One byte more than a text may have, so that a longer input is seen to be longer.
const ENOUGH: u64 = 65_537;

// A refused input ends with status 1, after its one line; so does want of memory, or an input that cannot be read.
fn main(rt: HostRuntime) -> anyhow::Result<ExitCode> {
    let mut input = Vec::new(rt.alloc());
    rt.stdin().take(ENOUGH).read_to_end(&mut input)?;
    let printed = answer(rt.alloc(), input.as_slice())?;
    rt.print(printed.text.as_str())?;
    if printed.refused.is_some() {
        return Ok(ExitCode::FAILURE);
    }
    Ok(ExitCode::SUCCESS)
}
