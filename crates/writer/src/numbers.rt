// The external numbers of a list: each is a run of bits, or two.
ghost use Rattle.std.specs.Prelude.{◌+◌, ◌*◌, ◌≤◌, ◌<◌, length, take};
ghost use Rattle.grammar.specs.Grammar.{external, no_external};
ghost use Rattle.words.specs.RecordWords.{number_from};
ghost use Rattle.words.proofs.LegalRecords.{SmallNumber};
ghost use Rattle.writer.specs.Inner.{Room, Puts, CodesAfter};

use crate::elements::put_run;
use crate::lists::Entry;
use bits::DigitCount;
use grammar::record::Number;

// A number and four digits after it.
fn with_four(start: u64, words: &[u32]) -> u64
    requires { (start < 256) × (4 ≤ length words.now) }
    ensures { (result < (start + 1) * 65536) × CodesAfter 4 4 start (take 4 words.now) result }
{
    let one = start * 16 + (words[0] as u64) % 16;
    let two = one * 16 + (words[1] as u64) % 16;
    let three = two * 16 + (words[2] as u64) % 16;
    three * 16 + (words[3] as u64) % 16
}

// And twelve: four at a time, so that none waits for all that stand before it.
fn with_twelve(start: u64, words: &[u32]) -> u64
    requires { (start < 256) × (12 ≤ length words.now) }
    ensures { CodesAfter 4 12 start (take 12 words.now) result }
{
    let high = with_four(start, words);
    let middle = with_four(0, &words[4..]);
    let low = with_four(0, &words[8..]);
    (high * 65536 + middle) * 65536 + low
}

// The length, and as many digits: up to twelve with it, and up to twelve more. Those begin at the byte in which the first run ends: its last
// bits are put again, so that no byte is read back that was just stored.
fn put_number(out: &mut [u8], at: usize, words: &[u32]) -> usize
    requires { (25 ≤ length words.now) × SmallNumber (number_from words.now) × Room external (number_from words.now) out.old at }
    ensures { Puts external (number_from words.now) out.old out.new at result }
{
    let count = words[0];
    let early = (count as usize).min(12);
    let early_bits = DigitCount(early as u8).bits().0;
    let first = with_twelve(count as u64, &words[1..]) >> (48 - early_bits);
    let middle = put_run(out, at, 5 + early_bits, first);
    if count < 13 {
        return middle;
    }
    let late = (count as usize).min(24) - 12;
    let late_bits = DigitCount(late as u8).bits().0;
    let again = middle % 8;
    let second = with_twelve(first % 256, &words[13..]) >> (48 - late_bits);
    put_run(out, middle - again, again + late_bits, second)
}

impl Entry for Number {
    ghost WORDS = { 25 };

    ghost used = { external };

    ghost unused = { no_external };

    ghost among = { number_from };

    ghost Small = { SmallNumber };

    fn put_entries(out: &mut [u8], at: usize, words: &[u32], n: usize) -> usize {
        let mut next = at;
        for i in 0..n {
            next = put_number(out, next, &words[25 * i..]);
        }
        next
    }
}
