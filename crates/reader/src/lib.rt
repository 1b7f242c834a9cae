// Reading a PDU: the walk decides; only from an accepted PDU are values stored, straight from its bits into the lent words.
#![tactic(auto)]

mod identities;
mod lists;
mod numbers;
mod part;
mod record;
mod services;
mod stores;

ghost use Rattle.std.specs.Prelude.{◌≡◌, length};
ghost use Rattle.reader.specs.Read.{read_is};
ghost use Rattle.reader.specs.Words.{read_words_is, read_words};

use bits::BitCount;
use grammar::record::Record;
use record::fill_record;
use walk::Refusal;
use words::record::{RECORD_WORDS, record_from};

// Reads the PDU of n bits in s into the words of its record: 9 for another number of words than a record's, then as `read`.
#[inline(never)]
pub fn read_words(s: &[u8], n: BitCount, words: &mut [u32]) -> Result<(), Refusal>
    ensures value { result ≡ read_words_is s.now n.0 (length words.old) }
    ensures words_after { words.new ≡ read_words s.now n.0 words.old }
{
    if words.len() != RECORD_WORDS {
        return Err(Refusal {
            number: 9,
            place: None,
        });
    }
    walk::walk(s, n)?;
    fill_record(s, words);
    Ok(())
}

// Reads the PDU of n bits in s: refusal 1 first, then element by element, 5 last.
pub fn read(s: &[u8], n: BitCount) -> Result<Record, Refusal>
    ensures { result ≡ read_is s.now n.0 }
{
    let mut words = [0u32; RECORD_WORDS];
    read_words(s, n, &mut words)?;
    Ok(record_from(&words).unwrap())
}
