// The PDU given last and its record, and cases that differ from them.
use crate::answer::Refusal;
use crate::input::Words;
use crate::show::Hex;
use crate::{calls, show};
use bits::BitCount;
use std::io;
use std::io::Write;

// The PDU given last, and its record.
#[derive(Clone, Copy)]
pub struct Last {
    pub bits: usize,
    pub bytes: [u8; 520],
    pub record: [u32; 520],
}

impl Last {
    pub(crate) fn nothing() -> Last {
        Last {
            bits: 0,
            bytes: [0; 520],
            record: [0; 520],
        }
    }

    // Runs a line that gives a PDU.
    pub(crate) fn replace<W: Write>(&mut self, out: &mut W, line: &[u8]) -> io::Result<()> {
        *self = Last::nothing();
        let mut words = Words::of(line);
        self.bits = words.number() as usize;
        let count = words.bytes(&mut self.bytes);
        match calls::read(out, &self.bytes[..count], self.bits)? {
            Ok(record) => {
                self.record = record;
                write!(out, "read")?;
                show::words(out, &record, 0)?;
                written(out, &record, 512)
            }
            Err(refusal) => write!(out, "{refusal}"),
        }
    }

    // Runs a line about what differs from the PDU given last.
    pub(crate) fn differ<W: Write>(&self, out: &mut W, line: &[u8]) -> io::Result<()> {
        match line.first() {
            Some(b't') => self.truncate(out, Words::after("truncate ", line)),
            Some(b'f') => self.field(out, Words::after("field ", line)),
            Some(b'a') => self.across(out, Words::after("across ", line)),
            Some(b's') => self.sweep(out, Words::after("sweep ", line)),
            Some(b'w') => self.write(out, Words::after("write ", line)),
            _ => Ok(()),
        }
    }

    fn truncate<W: Write>(&self, out: &mut W, mut words: Words) -> io::Result<()> {
        every(out, words.number(), |out, i| {
            self.with_element(out, i as usize, i as usize, 8 - i % 8, 0)
        })
    }

    fn field<W: Write>(&self, out: &mut W, mut words: Words) -> io::Result<()> {
        let [count, at, width] = words.numbers::<3>();
        every(out, count, |out, i| {
            self.with_element(out, self.bits, at as usize, width, i)
        })
    }

    fn across<W: Write>(&self, out: &mut W, mut words: Words) -> io::Result<()> {
        let [count, width, value] = words.numbers::<3>();
        every(out, count, |out, i| {
            self.with_element(out, self.bits, i as usize, width, value)
        })
    }

    fn sweep<W: Write>(&self, out: &mut W, mut words: Words) -> io::Result<()> {
        let [count, value] = words.numbers::<2>();
        every(out, count, |out, i| self.with_word(out, i, value))
    }

    // The record with the changes of a line, written.
    fn write<W: Write>(&self, out: &mut W, mut words: Words) -> io::Result<()> {
        let room = words.number();
        let mut record = self.record;
        while !words.rest.is_empty() {
            let index = words.number();
            let value = words.number();
            set(&mut record, index, value);
        }
        written(out, &record, room)
    }

    // The answer to the first bits of the PDU with an element in its place.
    fn with_element<W: Write>(
        &self,
        out: &mut W,
        bits: usize,
        at: usize,
        width: u32,
        value: u32,
    ) -> io::Result<u32> {
        let mut bytes = self.bytes;
        bits::put(&mut bytes, at, width as usize, value as u64);
        let count = BitCount(bits).bytes();
        Ok(number(calls::read(out, &bytes[..count.min(520)], bits)?))
    }

    // The answer to the record with one word changed.
    fn with_word<W: Write>(&self, out: &mut W, index: u32, value: u32) -> io::Result<u32> {
        let mut record = self.record;
        set(&mut record, index, value);
        Ok(number(calls::write(out, &record, 512)?))
    }
}

// Writes a record to a buffer of so many bytes, and prints its PDU.
fn written<W: Write>(out: &mut W, record: &[u32; 520], room: u32) -> io::Result<()> {
    match calls::write(out, record, room)? {
        Ok(lent) => write!(out, " written {} {}", lent.size, Hex(lent.pdu())),
        Err(refusal) => write!(out, " {refusal}"),
    }
}

// Gives a word another value, if there is such a word.
fn set(record: &mut [u32; 520], index: u32, value: u32) {
    if let Some(word) = record.get_mut(index as usize) {
        *word = value;
    }
}

// Prints the answers of many cases, each where it is another than the one before.
fn every<W: Write, F: Fn(&mut W, u32) -> io::Result<u32>>(
    out: &mut W,
    count: u32,
    answer: F,
) -> io::Result<()>
    requires { F.IsAlwaysCallable answer }
{
    let mut before = None;
    for i in 0..count {
        let number = answer(out, i)?;
        if before != Some(number) {
            write!(out, " {i}:{number}")?;
        }
        before = Some(number);
    }
    Ok(())
}

// The refusal number of an answer, 0 for none.
fn number<T: Drop>(answer: Result<T, Refusal>) -> u32 {
    match answer {
        Ok(_) => 0,
        Err(refusal) => refusal.number,
    }
}
