// The listing of an archive as text: a line for the header, then a line for each PDU held.
ghost use Rattle.std.specs.Prelude.{◌≡◌, ◌+◌, ◌≤◌, length};
ghost use Rattle.bits.specs.Inner.{Laid};
ghost use Rattle.archive.specs.Reading.{reading};
ghost use Rattle.archive.specs.Inner.{lines_in};
ghost use Rattle.archive.specs.Listing.{line, two_items, first_line, listing, list_is, list_out};
ghost use Rattle.archive.specs.Listing.{refused_line, fault_text, length_within, text_within, report_is, report_out, told_out};

use crate::checking::Archive;
use crate::contents::Entry;
use crate::refusal::Refusal;
use text::{digits_of, write_item};

// Writes a line of two numbers, each after its word; this and the other writers return the place after what they write.
fn write_two_items(out: &mut [u8], word: &[u8], n: usize, other: &[u8], m: usize) -> usize
    requires { length (two_items word.now n other.now m) ≤ length out.old }
    ensures { Laid out.old 0 (two_items word.now n other.now m) out.new result }
{
    let first_at = text::append(out, 0, word);
    let second_at = write_item(out, first_at, n, other);
    write_item(out, second_at, m, b"\n")
}

// Writes the line of the header.
fn write_first(out: &mut [u8], home: u32, count: usize) -> usize
    requires { length (first_line home count) ≤ length out.old }
    ensures { Laid out.old 0 (first_line home count) out.new result }
{
    write_two_items(out, b"home ", home as usize, b" entries ", count)
}

// Writes the line of an entry.
fn write_line(out: &mut [u8], at: usize, entry: Entry) -> usize
    requires { at + length (line entry) ≤ length out.old }
    ensures { Laid out.old at (line entry) out.new result }
{
    let key = entry.key;
    let ssi_at = write_item(out, at, key.network as usize, b" ");
    let part_at = write_item(out, ssi_at, key.ssi as usize, b" part ");
    let bits_at = write_item(out, part_at, key.part as usize, b" bits ");
    let day_at = write_item(out, bits_at, entry.bits.0, b" day ");
    write_item(out, day_at, entry.day as usize, b"\n")
}

// Bytes of the words in the first line, and in the line of an entry.
const FIRST_WORDS: usize = 15;

const LINE_WORDS: usize = 19;

// The length of an entry's line.
fn line_length(entry: Entry) -> usize
    ensures { (result ≡ length (line entry)) × (result ≤ 119) }
{
    let key = entry.key;
    let user = digits_of(key.network as usize) + digits_of(key.ssi as usize);
    let body = digits_of(key.part as usize) + digits_of(entry.bits.0);
    let day = digits_of(entry.day as usize);
    user + body + day + LINE_WORDS
}

impl<'a> Archive<'a> {
    // The length of the whole text.
    fn text_length(self) -> usize
        ensures { result ≡ length (listing (reading self.entry.bytes.now)) }
    {
        let count = self.count();
        let home = self.home();
        let mut size = digits_of(home as usize) + digits_of(count) + FIRST_WORDS;
        for index in 0..count {
            size += line_length(self.entry(index));
        }
        size
    }

    // Writes the lines of all entries.
    fn write_lines(self, out: &mut [u8], start: usize) -> usize
        requires { start + length (lines_in self.bytes.now) ≤ length out.old }
        ensures { Laid out.old start (lines_in self.entry.bytes.now) out.new result }
    {
        let mut at = start;
        for index in 0..self.count() {
            at = write_line(out, at, self.entry(index));
        }
        at
    }

    // Writes the whole text.
    fn write_text(self, out: &mut [u8]) -> usize
        requires { length (listing (reading self.bytes.now)) ≤ length out.old }
        ensures { Laid out.old 0 (listing (reading self.entry.bytes.now)) out.new result }
    {
        let lines_at = write_first(out, self.home(), self.count());
        self.write_lines(out, lines_at)
    }

    // Writes the listing, where there is room for it.
    fn write_listing(self, out: &mut [u8]) -> usize
        ensures value { result ≡ length_within (listing (reading self.entry.bytes.now)) (length out.old) }
        ensures out_after { out.new ≡ text_within (listing (reading self.entry.bytes.now)) out.old }
    {
        if out.len() < self.text_length() {
            return 0;
        }
        self.write_text(out)
    }
}

// Lists an archive: writes the text to the lent buffer.
pub fn list(archive: &[u8], out: &mut [u8]) -> Result<usize, Refusal>
    ensures value { result ≡ list_is archive.now (length out.old) }
    ensures out_after { out.new ≡ list_out archive.now out.old }
{
    let archive = Archive::checked(archive)?;
    if out.len() < archive.text_length() {
        return Err(Refusal::plain(8));
    }
    Ok(archive.write_text(out))
}

// Writes `refused 7` on a line, where there is room for it.
fn write_refused(out: &mut [u8]) -> usize
    ensures value { result ≡ length_within refused_line (length out.old) }
    ensures out_after { out.new ≡ text_within refused_line out.old }
{
    if out.len() < 10 {
        return 0;
    }
    text::append(out, 0, b"refused 7\n")
}

// Writes `entry I` on a line, where there is room for it.
fn write_entry(out: &mut [u8], index: usize) -> usize
    ensures value { result ≡ length_within (fault_text (Some index) None) (length out.old) }
    ensures out_after { out.new ≡ text_within (fault_text (Some index) None) out.old }
{
    if out.len() < 7 + digits_of(index) {
        return 0;
    }
    let index_at = text::append(out, 0, b"entry ");
    write_item(out, index_at, index, b"\n")
}

// Writes `entry I bit P` on a line, where there is room for it.
fn write_entry_bit(out: &mut [u8], index: usize, bit: usize) -> usize
    ensures value { result ≡ length_within (fault_text (Some index) (Some bit)) (length out.old) }
    ensures out_after { out.new ≡ text_within (fault_text (Some index) (Some bit)) out.old }
{
    if out.len() < 12 + digits_of(index) + digits_of(bit) {
        return 0;
    }
    write_two_items(out, b"entry ", index, b" bit ", bit)
}

// Writes where a body is at fault, if the refusal says so and there is room for it.
fn write_fault(refusal: Refusal, out: &mut [u8]) -> usize
    ensures value { result ≡ length_within (fault_text refusal.entry refusal.place) (length out.old) }
    ensures out_after { out.new ≡ text_within (fault_text refusal.entry refusal.place) out.old }
{
    let Some(index) = refusal.entry else {
        return 0;
    };
    match refusal.place {
        Some(bit) => write_entry_bit(out, index, bit),
        None => write_entry(out, index),
    }
}

// How many bytes the program `contents` prints, and how many it tells on standard error.
#[derive(Clone, Copy)]
pub struct Reported {
    pub printed: usize,
    pub told: usize,
}

// What the program `contents` prints of its input: writes the listing, or `refused 7` for what is no archive, to one lent buffer, and where a
// body is at fault to the other. A text is left out, and its buffer as it was, if it is longer than the buffer.
pub fn report(archive: &[u8], out: &mut [u8], told: &mut [u8]) -> Reported
    ensures value { result ≡ report_is archive.now (length out.old) (length told.old) }
    ensures out_after { out.new ≡ report_out archive.now out.old }
    ensures told_after { told.new ≡ told_out archive.now told.old }
{
    match Archive::checked(archive) {
        Err(refusal) => Reported {
            printed: write_refused(out),
            told: write_fault(refusal, told),
        },
        Ok(archive) => Reported {
            printed: archive.write_listing(out),
            told: 0,
        },
    }
}
