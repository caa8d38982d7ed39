// Prints the listing of every trace in the current folder, by name.
#![tactic(auto)]

use replay::listing::write_listing;
use std::fs;
use std::io::{BufWriter, Write};

// The names of the traces, sorted.
fn names(rt: &HostRuntime) -> anyhow::Result<Vec<String>> {
    let mut names = Vec::new(rt.alloc());
    for entry in fs::read_dir(rt, ".")? {
        let entry = entry?;
        names.push(String::from_str(rt.alloc(), entry.file_name())?)?;
    }
    names.sort()?;
    Ok(names)
}

fn main(rt: HostRuntime) -> anyhow::Result<()> {
    let mut out = BufWriter::new(rt.alloc(), rt.stdout())?;
    for name in names(&rt)?.iter() {
        let trace = fs::read(&rt, name.as_str())?;
        out.write_all(b"== ")?;
        out.write_all(name.as_bytes())?;
        out.write_all(b"\n")?;
        write_listing(trace.as_slice(), rt.alloc(), &mut out)?;
    }
    out.flush()?;
    Ok(())
}
