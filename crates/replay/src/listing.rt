use crate::line::LINE_BYTES;
use crate::lines::Lines;
use crate::opening::{Opened, open_trace};
use std::alloc::Global;
use std::io;
use std::io::Write;

// A listing has fewer lines: each is that of a record, of three bytes at least, but for four.
const MOST_LINES: usize = 65536;

// Asks for line after line and writes each.
fn write_lines<L: Lines, W: Write>(lines: &mut L, out: &mut W) -> io::Result<()> {
    let mut buffer = [0u8; LINE_BYTES];
    for _ in 0..MOST_LINES {
        let Ok(Some(count)) = lines.next_line(&mut buffer) else {
            return Ok(());
        };
        out.write_all(&buffer[..count])?;
    }
    Ok(())
}

// Writes the listing of a trace. What was opened is an enum, since a function may not hand out a `dyn`.
pub fn write_listing<W: Write>(trace: &[u8], heap: Global, out: &mut W) -> io::Result<()> {
    match open_trace(trace, heap)? {
        Opened::Alpha(mut replay) => write_lines(&mut replay, out),
        Opened::Sv39(mut replay) => write_lines(&mut replay, out),
        Opened::Without(mut listing) => write_lines(&mut listing, out),
    }
}
