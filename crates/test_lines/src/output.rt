// Output, one piece after the other. Where a write fails, the error goes up to the program's end.
use std::io;

pub fn text(rt: &impl Print, s: &[u8]) -> io::Result<()> {
    rt.write_all(s)
}

// Two hexadecimal digits for each byte.
pub fn hex(rt: &impl Print, s: &[u8]) -> io::Result<()> {
    for byte in s {
        print!(rt; "{byte:02x}")?;
    }
    Ok(())
}

// A blank, the text that names the case, and the line feed.
pub fn end_line(rt: &impl Print, name: &[u8]) -> io::Result<()> {
    text(rt, b" ")?;
    text(rt, name)?;
    text(rt, b"\n")
}

// For a line that names no call.
pub fn unknown(rt: &impl Print, rest: &[u8]) -> io::Result<()> {
    text(rt, b"unknown")?;
    end_line(rt, rest)
}
