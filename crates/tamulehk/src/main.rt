// The report program: a sheet on standard input, its report on standard output.
// It only reads and writes: the report is crate `report`'s. An unreadable standard input counts as empty.
#![tactic(auto)]

ghost use Rattle.std.specs.Prelude.{◌≤◌, length};

use std::io;
use std::io::{Read, Write};

// Fills a buffer from a reader, and gives how many bytes were read: to the reader's end, or as far as the buffer goes. A read that fails ends
// the file there.
fn fill<R: Read>(reader: &mut R, file: &mut [u8]) -> usize
    ensures { result ≤ length file.new }
{
    let mut done = 0;
    while done < file.len() {
        match reader.read(&mut file[done..]) {
            Ok(0) | Err(_) => return done,
            Ok(count) => done += count,
        }
    }
    done
}

// Writes the report of a file's bytes out, by way of a buffer with room for every report.
fn print<W: Write>(writer: &mut W, file: &[u8], out: &mut [u8]) -> io::Result<()> {
    match report::report(file, out) {
        Ok(length) => writer.write_all(&out[..length]),
        Err(_) => Ok(()),
    }
}

// Of a longer file only so many bytes are judged, and so no more are read.
fn main(rt: HostRuntime) -> io::Result<()> {
    let mut file = [0u8; report::JUDGED];
    let count = fill(&mut rt.stdin(), &mut file);
    let mut out = [0u8; report::ROOM];
    print(&mut rt.stdout(), &file[..count], &mut out)
}
