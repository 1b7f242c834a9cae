// The lines that give another archive.
use crate::answer;
use crate::answer::{NOWHERE, Refusal};
use crate::input::Words;
use crate::lent::{FULL_BYTE, LONG, Lent};
use std::io;
use std::io::Write;

// A PDU of so many bits, taken on a day.
#[derive(Clone, Copy)]
pub struct Pdu<'a> {
    pub bits: u32,
    pub day: u32,
    pub bytes: &'a [u8],
}

// A buffer, and the length of the archive in it, which a line may set to any number.
#[derive(Clone, Copy)]
pub struct Held {
    pub length: usize,
    pub bytes: [u8; LONG],
}

impl Held {
    pub(crate) fn nothing() -> Held {
        Held {
            length: 0,
            bytes: [FULL_BYTE; LONG],
        }
    }

    // The archive, as far as the buffer goes.
    pub(crate) fn archive(&self) -> &[u8] {
        &self.bytes[..self.length.min(LONG)]
    }

    // Runs a line that gives another archive.
    pub(crate) fn run<W: Write>(&mut self, out: &mut W, line: &[u8]) -> io::Result<()> {
        match line.first() {
            Some(b'e') => self.empty(out, Words::after("empty ", line)),
            Some(b'c') => self.capture(out, Words::after("capture ", line)),
            Some(b'm') => self.many(out, Words::after("many ", line)),
            Some(b'o') => self.overwrite(out, Words::after("overwrite ", line)),
            Some(b'l') => self.length(out, Words::after("length ", line)),
            _ => Ok(()),
        }
    }

    // Prints an answer, and holds the archive that was written.
    fn keep<W: Write>(
        &mut self,
        out: &mut W,
        lent: &Lent<LONG>,
        answer: Result<(), Refusal>,
    ) -> io::Result<()> {
        lent.print(out, answer)?;
        if answer.is_ok() {
            self.length = lent.size;
            self.bytes = lent.bytes;
        }
        Ok(())
    }

    fn empty<W: Write>(&mut self, out: &mut W, mut words: Words) -> io::Result<()> {
        let [home, room] = words.numbers::<2>();
        let mut lent = Lent::full();
        let number = boc::boc_empty(
            home,
            &mut lent.bytes[..LONG.min(room as usize)],
            &mut lent.size,
        );
        self.keep(out, &lent, answer::told(number, NOWHERE, NOWHERE))
    }

    fn capture<W: Write>(&mut self, out: &mut W, mut words: Words) -> io::Result<()> {
        let [room, bits, day] = words.numbers::<3>();
        let mut bytes = [0; 520];
        let count = words.bytes(&mut bytes);
        let pdu = Pdu {
            bits,
            day,
            bytes: &bytes[..count],
        };
        self.capture_in(out, pdu, room as usize)
    }

    fn capture_in<W: Write>(&mut self, out: &mut W, pdu: Pdu, room: usize) -> io::Result<()> {
        let mut lent = Lent::full();
        let number = boc::boc_capture(
            self.archive(),
            pdu.bytes,
            pdu.bits as usize,
            pdu.day,
            &mut lent.bytes[..LONG.min(room)],
            &mut lent.size,
            &mut lent.entry,
            &mut lent.place,
        );
        self.keep(out, &lent, lent.told(number))
    }

    // Captures a PDU under each SSI from one up to another; a line for each.
    fn many<W: Write>(&mut self, out: &mut W, mut words: Words) -> io::Result<()> {
        let [from, to, bits, day] = words.numbers::<4>();
        let mut bytes = [0; 520];
        let count = words.bytes(&mut bytes);
        for ssi in from..to {
            // it stands behind SS type, PDU type and range type
            bits::put(&mut bytes, 15, 24, ssi as u64);
            let pdu = Pdu {
                bits,
                day,
                bytes: &bytes[..count],
            };
            self.capture_in(out, pdu, LONG)?;
            writeln!(out)?;
        }
        Ok(())
    }

    fn overwrite<W: Write>(&mut self, out: &mut W, mut words: Words) -> io::Result<()> {
        let at = words.number() as usize;
        let count = words.bytes(&mut self.bytes[at.min(LONG)..]);
        write!(out, "put {count}")
    }

    fn length<W: Write>(&mut self, out: &mut W, mut words: Words) -> io::Result<()> {
        write!(out, "was {}", self.length)?;
        self.length = words.number() as usize;
        Ok(())
    }
}
