// Replays the trace on standard input and prints its listing.
#![tactic(auto)]

use replay::lines::Lines;
use replay::listing::write_listing;
use std::io::{BufWriter, Read, Write};

// One byte more than a trace may have, so that a longer one is seen to be so.
const MOST_BYTES: u64 = 65536;

fn main(rt: HostRuntime) -> anyhow::Result<()> {
    let mut trace = Vec::new(rt.alloc());
    rt.stdin().take(MOST_BYTES).read_to_end(&mut trace)?;
    let mut out = BufWriter::new(rt.alloc(), rt.stdout())?;
    write_listing(trace.as_slice(), rt.alloc(), &mut out)?;
    out.flush()?;
    Ok(())
}
