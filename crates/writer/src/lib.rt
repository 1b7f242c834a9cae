// A record written as a PDU into a lent buffer, straight from its words. Everything is checked before the first bit is stored, so a refusal
// changes no byte.
#![tactic(auto)]

mod elements;
mod identities;
mod lists;
mod numbers;
mod record;
mod services;

ghost use Rattle.std.specs.Prelude.{◌≡◌, ◌++◌, ◌≤◌, length, drop, leb, Ok, Err};
ghost use Rattle.bits.specs.Bits.{pick};
ghost use Rattle.bits.specs.Frame.{bytes_for, pack};
ghost use Rattle.grammar.specs.Grammar.{pdu};
ghost use Rattle.words.specs.RecordWords.{record_from};
ghost use Rattle.writer.specs.Inner.{Small};
ghost use Rattle.writer.specs.Write.{length_of, write_refusal, written, write_is, out_is, write_words_is, write_words_out};

use crate::record::put_record;
use bits::BitCount;
use grammar::record::Record;
use grammar::site::kind_refusal;
use tally::tally_words;
use words::record::RECORD_WORDS;

// The length in bits, or the number with which the record is refused; the bytes of the PDU, and all after them as they were.
pub fn write(r: Record, out: &mut [u8]) -> Result<BitCount, u32>
    ensures { (result ≡ write_is r out.old) × (out.new ≡ out_is r out.old) }
{
    let mut spelt = [0u32; RECORD_WORDS];
    words::record::put_record(&mut spelt, r);
    write_words(&spelt, out)
}

// The same for a record in 520 words; another number of words gives 9.
pub fn write_words(words: &[u32], out: &mut [u8]) -> Result<BitCount, u32>
    ensures { (result ≡ write_words_is words.now out.old) × (out.new ≡ write_words_out words.now out.old) }
{
    if words.len() != RECORD_WORDS {
        return Err(9);
    }
    let n = checked(words, out.len())?;
    fill(out, words, n);
    Ok(n)
}

// The answer for a buffer of `room` bytes: 3 for a PDU type that we do not read or for what must be zero and is not; then the first fault; then 8.
fn checked(words: &[u32], room: usize) -> Result<BitCount, u32>
    requires { length words.now ≡ 520 }
    ensures { result ≡ written (length_of (record_from words.now)) (write_refusal (record_from words.now) room) }
{
    let kind = words[0];
    if kind_refusal(kind) != 0 {
        return Err(3);
    }
    let sum = tally_words(words);
    if !sum.clean {
        return Err(3);
    }
    let length = BitCount(sum.bits);
    let fault = sum.refusal;
    if fault != 0 {
        return Err(fault);
    }
    check_room(room, length)?;
    Ok(length)
}

// 8 for a buffer that has not the bytes which hold a PDU of this length.
fn check_room(room: usize, length: BitCount) -> Result<(), u32>
    ensures { result ≡ pick (leb (bytes_for length.0) room) (Ok tt) (Err 8) }
{
    if length.bytes() <= room {
        Ok(())
    } else {
        Err(8)
    }
}

// Straight into the PDU's own bytes: the first of the buffer are lent on, exactly as many as hold it.
fn fill(out: &mut [u8], words: &[u32], n: BitCount)
    requires { (length words.now ≡ 520) × Small (record_from words.now).lists × (bytes_for (length_of (record_from words.now)) ≤ length out.old) × (n.0 ≡ length_of (record_from words.now)) }
    ensures { out.new ≡ pack (pdu.print (record_from words.now)) ++ drop (bytes_for (length_of (record_from words.now))) out.old }
{
    let count = n.bytes();
    fill_bytes(&mut out[..count], words);
}

// The record's elements in exactly the bytes that hold them, and zeros in the unused bits of the last.
fn fill_bytes(place: &mut [u8], words: &[u32])
    requires { (length words.now ≡ 520) × Small (record_from words.now).lists × (length place.old ≡ bytes_for (length_of (record_from words.now))) }
    ensures { place.new ≡ pack (pdu.print (record_from words.now)) }
{
    let end = put_record(place, words);
    bits::lay(place, end, 8 * place.len() - end, 0);
}
