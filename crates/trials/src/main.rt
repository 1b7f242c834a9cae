// Runs cases through the calls, all but `boc_entry`, a line of standard input each, and prints a line for each.
//
// `BITS HEX` is the PDU of so many bits in these bytes: its refusal; or its record, each word that is not zero as `INDEX:VALUE`, and the PDU that
// is written of it. These speak of the PDU given last and of its record, which is zero after a refusal:
//   truncate COUNT                   its first I bits, for each I below COUNT: the answers
//   field COUNT AT WIDTH             with each I below COUNT in the WIDTH bits at AT: the answers
//   across COUNT WIDTH VALUE         with this value in as many bits at each I below COUNT: the answers
//   sweep COUNT VALUE                its record with this value in each word I below COUNT in turn: the answers
//   write ROOM INDEX VALUE ..        its record with some words changed, written to so many bytes
// An answer is a refusal number, 0 for none, and is printed as `I:NUMBER` where it is another than that before; the line stands before them.
//
// These speak of the archive that was written last: its length and its sum are printed.
//   empty HOME ROOM                  the empty archive, written to ROOM lent bytes
//   capture ROOM BITS DAY HEX        the archive with this PDU, taken on this day, written to ROOM lent bytes
//   many FROM TO BITS DAY HEX        the same under each SSI from FROM up to TO: a line for each, and an empty one
//   restore NETWORK SSI PART ROOM    a held PDU and its day, written to ROOM lent bytes
//   reload NETWORK SSI PART DEFINITION DELIVERY ACKNOWLEDGEMENT ROOM
//                                    the same as a DEFINE with this definition type and these two bits
//   reload_external NETWORK SSI DEFINITION DELIVERY ACKNOWLEDGEMENT ROOM
//                                    a held number part as a DEFINE EXTERNAL
//   decide WORD,WORD,..              the decision on the request in these words; no digits are 0, and so are words left out. Both engines are
//                                    asked, and what the second says follows where it is something else
//   verify                           the listing of the held archive, its length and sum
//   print FROM TO                    the bytes of the held archive's buffer from FROM up to TO
//   overwrite AT HEX                 other bytes in that buffer
//   length N                         another length for the held archive
//
// A refusal is printed as `refused NUMBER`, with ` entry I` and ` bit P` after it where it says that it stopped there.
//
// Before each call the buffer that is lent is full of one byte. What a refusal changed of a record is printed as words, and ` changed` where a
// byte that is not of what was written has another value. A line of any other kind is printed as it is.
#![tactic(auto)]

mod answer;
mod asks;
mod calls;
mod held;
mod input;
mod last;
mod lent;
mod show;

use held::Held;
use last::Last;
use std::io;
use std::io::{BufWriter, Read, Write};

// No more of standard input is run.
const MOST: usize = 524288;

fn main(rt: HostRuntime) -> io::Result<()> {
    let mut text = Vec::new(rt.alloc());
    let count = rt.stdin().take(MOST as u64).read_to_end(&mut text)?;
    let mut out = BufWriter::new(rt.alloc(), rt.stdout())?;
    run(&mut out, text.as_slice())?;
    if count == MOST {
        writeln!(out, "input too long")?;
    }
    out.flush()
}

// What the lines after one speak of: the PDU given last, and the archive.
#[derive(Drop)]
pub struct State {
    pub last: Last,
    pub held: Held,
}

fn run<W: Write>(out: &mut W, s: &[u8]) -> io::Result<()> {
    let mut state = State {
        last: Last::nothing(),
        held: Held::nothing(),
    };
    for ended in s.split_inclusive(|byte| *byte == b'\n') {
        let line = ended.strip_suffix(b"\n").unwrap_or(ended);
        case(out, line, &mut state)?;
        writeln!(out)?;
    }
    Ok(())
}

// Runs one line: one that gives a PDU, gives another archive, asks something of the archive, or changes something of the PDU given last.
fn case<W: Write>(out: &mut W, line: &[u8], state: &mut State) -> io::Result<()> {
    match line.first() {
        Some(b'0'..=b'9') => state.last.replace(out, line),
        Some(b'e' | b'c' | b'm' | b'o' | b'l') => state.held.run(out, line),
        Some(b'r' | b'v' | b'd' | b'p') => asks::ask(out, line, &state.held),
        _ => {
            out.write_all(line)?;
            state.last.differ(out, line)
        }
    }
}
