// Prints what the archive on standard input holds, or `refused 7` where there is none, and tells on standard error which body is at fault, if that
// is what is wrong: reads, has the library report, and writes that.
#![tactic(auto)]

ghost use Rattle.std.specs.Prelude.{◌≤◌, length, IfOk};

use archive::listing;
use std::io;
use std::io::{Read, Write};

// A write that fails changes nothing but what is printed.
fn main(rt: HostRuntime) {
    // one byte more than an archive may have, so that longer input is refused
    let mut input = [0u8; 65537];
    // no report is longer: 26 bytes, and 45 for each of at most 512 entries
    let mut text = [0u8; 23066];
    // nothing told is longer: 12 bytes, and two numbers of at most 20 digits
    let mut fault = [0u8; 52];
    // of input that cannot be read nothing is looked at, and no bytes are no archive
    let count = read_all(&mut rt.stdin(), &mut input).unwrap_or(0);
    let report = listing::report(&input[..count], &mut text, &mut fault);
    let _ = rt.stdout().write_all(&text[..report.printed]);
    let _ = rt.stderr().write_all(&fault[..report.told]);
}

// Reads until the input ends or the buffer is full, and says how many bytes came. Std's `read_to_end` fills a `Vec`, for which memory could run out.
fn read_all<R: Read>(input: &mut R, buffer: &mut [u8]) -> io::Result<usize>
    ensures { IfOk result (λ count. count ≤ length buffer.new) }
{
    let mut done = 0;
    while done < buffer.len() {
        let count = input.read(&mut buffer[done..])?;
        if count == 0 {
            break;
        }
        done += count;
    }
    Ok(done)
}
