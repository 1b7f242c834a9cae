// A PDU read and a record written, on buffers that are full of one byte before.
use crate::answer::{NOWHERE, Refusal};
use crate::lent::{FULL_PLACE, FULL_WORD, Lent};
use crate::{answer, show};
use std::io;
use std::io::Write;

// Reads a PDU of so many bits: its record. Prints what a refusal changed of the record.
pub(crate) fn read<W: Write>(
    out: &mut W,
    pdu: &[u8],
    bits: usize,
) -> io::Result<Result<[u32; 520], Refusal>> {
    let mut record = [FULL_WORD; 520];
    let mut place = FULL_PLACE;
    let number = boc::boc_read(pdu, bits, &mut record, &mut place);
    let answer = answer::told(number, NOWHERE, place);
    if answer.is_err() {
        show::words(out, &record, FULL_WORD)?;
    }
    Ok(answer.map(|()| record))
}

// Writes a record to a buffer of so many bytes: its PDU. Tells whether a byte behind what was written has changed.
pub(crate) fn write<W: Write>(
    out: &mut W,
    record: &[u32; 520],
    room: u32,
) -> io::Result<Result<Lent<512>, Refusal>> {
    let mut lent = Lent::full();
    let number = boc::boc_write(
        record,
        &mut lent.bytes[..512.min(room as usize)],
        &mut lent.size,
    );
    show::rest(out, &lent.bytes, lent.pdu().len())?;
    Ok(answer::told(number, NOWHERE, NOWHERE).map(|()| lent))
}
