// The lines that ask something of the archive.
use crate::answer::{Decision, Refusal};
use crate::held::Held;
use crate::input::Words;
use crate::lent::{FULL_PLACE, LONG, Lent};
use crate::show::Hex;
use crate::{answer, show};
use std::io;
use std::io::Write;

pub(crate) fn ask<W: Write>(out: &mut W, line: &[u8], held: &Held) -> io::Result<()> {
    let archive = held.archive();
    match line.first() {
        Some(b'r') => give(out, line, archive),
        Some(b'v') => verify(out, archive),
        Some(b'd') => decide(out, Words::after("decide ", line), archive),
        Some(b'p') => print(out, Words::after("print ", line), &held.bytes),
        _ => Ok(()),
    }
}

// A held PDU: as it is, as a DEFINE, or as a DEFINE EXTERNAL.
fn give<W: Write>(out: &mut W, line: &[u8], archive: &[u8]) -> io::Result<()> {
    match (line.get(2), line.get(6)) {
        (Some(b's'), _) => restore(out, Words::after("restore ", line), archive),
        (Some(b'l'), Some(b'_')) => reload_external(
            out,
            Words::after("reload_external ", line),
            archive,
        ),
        (Some(b'l'), _) => reload(out, Words::after("reload ", line), archive),
        _ => Ok(()),
    }
}

fn restore<W: Write>(out: &mut W, mut words: Words, archive: &[u8]) -> io::Result<()> {
    let [network, ssi, part, room] = words.numbers::<4>();
    let mut lent = Lent::<LONG>::full();
    let mut day = 0;
    let number = boc::boc_restore(
        archive,
        network,
        ssi,
        part,
        &mut lent.bytes[..LONG.min(room as usize)],
        &mut lent.size,
        &mut day,
        &mut lent.entry,
        &mut lent.place,
    );
    match lent.told(number) {
        Ok(()) => write!(out, "bits {} day {day} {}", lent.size, Hex(lent.pdu()))?,
        Err(refusal) => write!(out, "{refusal}")?,
    }
    show::rest(out, &lent.bytes, lent.pdu().len())
}

fn reload<W: Write>(out: &mut W, mut words: Words, archive: &[u8]) -> io::Result<()> {
    let [
        network,
        ssi,
        part,
        definition,
        delivery,
        acknowledgement,
        room,
    ] = words.numbers::<7>();
    let mut lent = Lent::<LONG>::full();
    let number = boc::boc_reload(
        archive,
        network,
        ssi,
        part,
        definition,
        delivery,
        acknowledgement,
        &mut lent.bytes[..LONG.min(room as usize)],
        &mut lent.size,
        &mut lent.entry,
        &mut lent.place,
    );
    reloaded(out, &lent, number)
}

fn reload_external<W: Write>(out: &mut W, mut words: Words, archive: &[u8]) -> io::Result<()> {
    let [network, ssi, definition, delivery, acknowledgement, room] = words.numbers::<6>();
    let mut lent = Lent::<LONG>::full();
    let number = boc::boc_reload_external(
        archive,
        network,
        ssi,
        definition,
        delivery,
        acknowledgement,
        &mut lent.bytes[..LONG.min(room as usize)],
        &mut lent.size,
        &mut lent.entry,
        &mut lent.place,
    );
    reloaded(out, &lent, number)
}

// Prints the PDU that was written, or the refusal.
fn reloaded<W: Write>(out: &mut W, lent: &Lent<LONG>, number: u32) -> io::Result<()> {
    match lent.told(number) {
        Ok(()) => write!(out, "bits {} {}", lent.size, Hex(lent.pdu()))?,
        Err(refusal) => write!(out, "{refusal}")?,
    }
    show::rest(out, &lent.bytes, lent.pdu().len())
}

fn verify<W: Write>(out: &mut W, archive: &[u8]) -> io::Result<()> {
    let mut lent = Lent::<LONG>::full();
    let number = boc::boc_contents(
        archive,
        &mut lent.bytes,
        &mut lent.size,
        &mut lent.entry,
        &mut lent.place,
    );
    lent.print(out, lent.told(number))
}

// What an engine answers to a request.
fn decided<F: FnOnce(&[u8], &[u32], &mut u32, &mut usize, &mut usize) -> u32>(
    engine: F,
    archive: &[u8],
    request: &[u32],
) -> Result<Decision, Refusal>
    requires { F.IsAlwaysCallable engine }
{
    let mut decision = 0;
    let mut entry = FULL_PLACE;
    let mut place = FULL_PLACE;
    let number = engine(archive, request, &mut decision, &mut entry, &mut place);
    answer::told(number, entry, place)?;
    Ok(Decision::from(decision))
}

fn tell<W: Write>(out: &mut W, answer: Result<Decision, Refusal>) -> io::Result<()> {
    match answer {
        Ok(decision) => write!(out, "{decision}"),
        Err(refusal) => write!(out, "{refusal}"),
    }
}

fn decide<W: Write>(out: &mut W, mut words: Words, archive: &[u8]) -> io::Result<()> {
    let request = words.numbers::<34>();
    let by_record = decided(boc::boc_decide, archive, &request);
    let in_place = decided(boc::boc_decide_in_place, archive, &request);
    tell(out, by_record)?;
    if in_place != by_record {
        write!(out, ", in place ")?;
        tell(out, in_place)?;
    }
    Ok(())
}

fn print<W: Write>(out: &mut W, mut words: Words, bytes: &[u8]) -> io::Result<()> {
    let [from, to] = words.numbers::<2>();
    let end = bytes.len().min(to as usize);
    let part = bytes.get(from as usize..end).unwrap_or(&[]);
    write!(out, "{}", Hex(part))
}
