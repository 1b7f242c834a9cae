// The calls for C, which boc_c exports: each returns 0 or the refusal number; what it answers besides goes through a pointer to one number, which a
// refusal leaves alone. A refusal of reading, or of an archive's call, says where it stopped through pointers of their own, which a success leaves
// alone. A slice of words of another length than it should have gives 9, before anything else.
#![tactic(auto)]

pub mod serial;

ghost use Rattle.std.specs.Prelude.{◌≡◌, length, Ok};
ghost use Rattle.reader.specs.Words.{read_words};
ghost use Rattle.archive.specs.Keeping.{empty_out, capture_out};
ghost use Rattle.archive.specs.Restoring.{restore_out};
ghost use Rattle.archive.specs.Listing.{list_out};
ghost use Rattle.reload.specs.Reload.{reload_is, reload_out};
ghost use Rattle.barring.specs.Decision.{verdict_of};
ghost use Rattle.boc.specs.Calls.{place_word, told_number, told_entry, told_place, told_value};
ghost use Rattle.boc.specs.Calls.{read_number, read_place, write_number, write_out, write_bits};
ghost use Rattle.boc.specs.Calls.{empty_number, empty_length, stored_length, capture_answer, contents_answer};
ghost use Rattle.boc.specs.Calls.{key_words, listed_key, listed_length, listed_day, entry_answer};
ghost use Rattle.boc.specs.Calls.{key_of, restored_length, restored_day, restore_answer};
ghost use Rattle.boc.specs.Calls.{reloaded_length, reload_answer, reload_leaves, external_answer, external_leaves};
ghost use Rattle.boc.specs.Calls.{decided_verdict, decide_answer};

use archive::{Key, Refusal, listing};
use barring::Decision;
use bits::BitCount;
use reload::{Definition, Target};
use words::request;

// No entry, or no place: BOC_NOWHERE.
const NOWHERE: usize = 18446744073709551615;

// Words of a key.
const KEY_WORDS: usize = 3;

// The refusal of words that are no key's, or no request's.
const NO_WORDS: Refusal = Refusal {
    number: 9,
    entry: None,
    place: None,
};

// The word for C of an entry or a bit place.
fn place_word(place: Option<usize>) -> usize
    ensures { result ≡ place_word place }
{
    place.unwrap_or(NOWHERE)
}

// Says where an archive's call stopped; returns the refusal number.
fn refuse(refusal: Refusal, entry: &mut usize, place: &mut usize) -> u32
    ensures value { result ≡ refusal.number }
    ensures after { entry.new ≡ place_word refusal.entry }
    ensures place_after { place.new ≡ place_word refusal.place }
{
    *entry = place_word(refusal.entry);
    *place = place_word(refusal.place);
    refusal.number
}

// Tells an answer: the value of a success, or where an archive's call stopped; returns 0 or the refusal number.
fn tell<V: Copy>(
    answer: Result<V, Refusal>,
    told: &mut V,
    entry: &mut usize,
    place: &mut usize,
) -> u32
    ensures value { result ≡ told_number answer }
    ensures told_after { told.new ≡ told_value (λ v. v) answer told.old }
    ensures after { entry.new ≡ told_entry answer entry.old }
    ensures place_after { place.new ≡ told_place answer place.old }
{
    match answer {
        Ok(value) => {
            *told = value;
            0
        },
        Err(refusal) => refuse(refusal, entry, place),
    }
}

// The words of a key: network, SSI, part.
fn store_key(key: Key, words: &mut [u32])
    requires { length words.old ≡ 3 }
    ensures { words.new ≡ key_words key }
{
    words.copy_from_slice(&[key.network, key.ssi, key.part]);
}

// A decision as a number: 0 to 2 barred with that cause, 3 allowed, 4 not held.
fn verdict(decision: Decision) -> u32
    ensures { result ≡ verdict_of (Ok decision) }
{
    match decision {
        Decision::Barred(cause) => u32::from(cause),
        Decision::Allowed => 3,
        Decision::NotHeld => 4,
    }
}

// Reads the PDU of `bits` bits in `pdu`; its record goes to `record`.
pub fn boc_read(pdu: &[u8], bits: usize, record: &mut [u32], place: &mut usize) -> u32
    ensures value { result ≡ read_number pdu.now bits (length «record».old) }
    ensures record_after { «record».new ≡ read_words pdu.now bits «record».old }
    ensures place_after { place.new ≡ read_place pdu.now bits (length «record».old) place.old }
{
    match pdu::read_words(pdu, BitCount(bits), record) {
        Ok(()) => 0,
        Err(stopped) => {
            *place = place_word(stopped.place);
            stopped.number
        },
    }
}

// Writes a record as a PDU; its length in bits goes to `bits`.
#[tactic(auto, unfolding(writer::specs::Write::write_words_is, writer::specs::Write::write_words_out, crate::specs::Calls::write_number, crate::specs::Calls::write_out, crate::specs::Calls::write_bits))]
pub fn boc_write(record: &[u32], out: &mut [u8], bits: &mut usize) -> u32
    ensures value { result ≡ write_number «record».now out.old }
    ensures out_after { out.new ≡ write_out «record».now out.old }
    ensures bits_after { bits.new ≡ write_bits «record».now out.old bits.old }
{
    match pdu::write_words(record, out) {
        Ok(length) => {
            *bits = length.0;
            0
        },
        Err(number) => number,
    }
}

// Writes the empty archive of a home network; its length in bytes goes to `length`.
pub fn boc_empty(home: u32, out: &mut [u8], length: &mut usize) -> u32
    ensures value { result ≡ empty_number home out.old }
    ensures out_after { out.new ≡ empty_out home out.old }
    ensures length_after { length.new ≡ empty_length home out.old length.old }
{
    match archive::empty(home, out) {
        Ok(bytes) => {
            *length = bytes;
            0
        },
        Err(refusal) => refusal.number,
    }
}

// Captures the PDU of `bits` bits in `pdu`, taken on `day`: writes the new archive; its length in bytes goes to `length`.
pub fn boc_capture(
    archive: &[u8],
    pdu: &[u8],
    bits: usize,
    day: u32,
    out: &mut [u8],
    length: &mut usize,
    entry: &mut usize,
    place: &mut usize,
) -> u32
    ensures value { result ≡ told_number (capture_answer archive.now pdu.now bits day out.old) }
    ensures out_after { out.new ≡ capture_out archive.now pdu.now bits day out.old }
    ensures length_after { length.new ≡ stored_length (capture_answer archive.now pdu.now bits day out.old) length.old }
    ensures after { entry.new ≡ told_entry (capture_answer archive.now pdu.now bits day out.old) entry.old }
    ensures place_after { place.new ≡ told_place (capture_answer archive.now pdu.now bits day out.old) place.old }
{
    let answer = archive::capture(archive, pdu, BitCount(bits), day, out);
    tell(answer, length, entry, place)
}

// The entry at an index: network, SSI and part go to `key`, the length in bits to `bits`, the day to `day`.
#[tactic(auto, unfolding(crate::specs::Calls::entry_answer))]
pub fn boc_entry(
    archive: &[u8],
    index: usize,
    key: &mut [u32],
    bits: &mut usize,
    day: &mut u32,
    entry: &mut usize,
    place: &mut usize,
) -> u32
    ensures value { result ≡ told_number (entry_answer archive.now index (length key.old)) }
    ensures key_after { key.new ≡ listed_key (entry_answer archive.now index (length key.old)) key.old }
    ensures bits_after { bits.new ≡ listed_length (entry_answer archive.now index (length key.old)) bits.old }
    ensures day_after { day.new ≡ listed_day (entry_answer archive.now index (length key.old)) day.old }
    ensures after { entry.new ≡ told_entry (entry_answer archive.now index (length key.old)) entry.old }
    ensures place_after { place.new ≡ told_place (entry_answer archive.now index (length key.old)) place.old }
{
    if key.len() != KEY_WORDS {
        return refuse(NO_WORDS, entry, place);
    }
    match archive::entry(archive, index) {
        Ok(listed) => {
            store_key(listed.key, key);
            *bits = listed.bits.0;
            *day = listed.day;
            0
        },
        Err(unlisted) => refuse(unlisted, entry, place),
    }
}

// Restores the PDU held for a user and part; its length in bits goes to `bits`, its day to `day`.
pub fn boc_restore(
    archive: &[u8],
    network: u32,
    ssi: u32,
    part: u32,
    out: &mut [u8],
    bits: &mut usize,
    day: &mut u32,
    entry: &mut usize,
    place: &mut usize,
) -> u32
    ensures value { result ≡ told_number (restore_answer archive.now network ssi part out.old) }
    ensures out_after { out.new ≡ restore_out archive.now (key_of network ssi part) out.old }
    ensures bits_after { bits.new ≡ restored_length (restore_answer archive.now network ssi part out.old) bits.old }
    ensures day_after { day.new ≡ restored_day (restore_answer archive.now network ssi part out.old) day.old }
    ensures after { entry.new ≡ told_entry (restore_answer archive.now network ssi part out.old) entry.old }
    ensures place_after { place.new ≡ told_place (restore_answer archive.now network ssi part out.old) place.old }
{
    let key = Key { network, ssi, part };
    match archive::restore(archive, key, out) {
        Ok(restored) => {
            *bits = restored.bits.0;
            *day = restored.day;
            0
        },
        Err(unrestored) => refuse(unrestored, entry, place),
    }
}

// Puts the part held for a user back; the length of what was written goes to `bits`.
fn put_back(
    target: Target,
    archive: &[u8],
    key: Key,
    wanted: Definition,
    out: &mut [u8],
    bits: &mut usize,
    entry: &mut usize,
    place: &mut usize,
) -> u32
    ensures value { result ≡ told_number (reload_is target archive.now key wanted out.old) }
    ensures out_after { out.new ≡ reload_out target archive.now key wanted out.old }
    ensures bits_after { bits.new ≡ reloaded_length (reload_is target archive.now key wanted out.old) bits.old }
    ensures after { entry.new ≡ told_entry (reload_is target archive.now key wanted out.old) entry.old }
    ensures place_after { place.new ≡ told_place (reload_is target archive.now key wanted out.old) place.old }
{
    let answer = reload::reload(target, archive, key, wanted, out);
    tell(answer.map(|written| written.0), bits, entry, place)
}

// Writes the DEFINE of the part held for a user; its length in bits goes to `bits`.
pub fn boc_reload(
    archive: &[u8],
    network: u32,
    ssi: u32,
    part: u32,
    definition: u32,
    delivery: u32,
    acknowledgement: u32,
    out: &mut [u8],
    bits: &mut usize,
    entry: &mut usize,
    place: &mut usize,
) -> u32
    ensures value { result ≡ told_number (reload_answer archive.now network ssi part definition delivery acknowledgement out.old) }
    ensures out_after { out.new ≡ reload_leaves archive.now network ssi part definition delivery acknowledgement out.old }
    ensures bits_after { bits.new ≡ reloaded_length (reload_answer archive.now network ssi part definition delivery acknowledgement out.old) bits.old }
    ensures after { entry.new ≡ told_entry (reload_answer archive.now network ssi part definition delivery acknowledgement out.old) entry.old }
    ensures place_after { place.new ≡ told_place (reload_answer archive.now network ssi part definition delivery acknowledgement out.old) place.old }
{
    let key = Key { network, ssi, part };
    let wanted = Definition {
        definition,
        delivery,
        acknowledgement,
    };
    put_back(
        Target::Define,
        archive,
        key,
        wanted,
        out,
        bits,
        entry,
        place,
    )
}

// Writes the DEFINE EXTERNAL of the number part held for a user; its length in bits goes to `bits`.
pub fn boc_reload_external(
    archive: &[u8],
    network: u32,
    ssi: u32,
    definition: u32,
    delivery: u32,
    acknowledgement: u32,
    out: &mut [u8],
    bits: &mut usize,
    entry: &mut usize,
    place: &mut usize,
) -> u32
    ensures value { result ≡ told_number (external_answer archive.now network ssi definition delivery acknowledgement out.old) }
    ensures out_after { out.new ≡ external_leaves archive.now network ssi definition delivery acknowledgement out.old }
    ensures bits_after { bits.new ≡ reloaded_length (external_answer archive.now network ssi definition delivery acknowledgement out.old) bits.old }
    ensures after { entry.new ≡ told_entry (external_answer archive.now network ssi definition delivery acknowledgement out.old) entry.old }
    ensures place_after { place.new ≡ told_place (external_answer archive.now network ssi definition delivery acknowledgement out.old) place.old }
{
    let key = Key {
        network,
        ssi,
        part: 2,
    };
    let wanted = Definition {
        definition,
        delivery,
        acknowledgement,
    };
    put_back(
        Target::DefineExternal,
        archive,
        key,
        wanted,
        out,
        bits,
        entry,
        place,
    )
}

// Decides a request; the decision goes to `decision`: 0 to 2 barred with that cause, 3 allowed, 4 not held.
#[tactic(auto, unfolding(words::specs::RequestWords::given_request, crate::specs::Calls::decide_answer))]
pub fn boc_decide(
    archive: &[u8],
    request: &[u32],
    decision: &mut u32,
    entry: &mut usize,
    place: &mut usize,
) -> u32
    ensures value { result ≡ told_number (decide_answer archive.now request.now) }
    ensures decision_after { decision.new ≡ decided_verdict (decide_answer archive.now request.now) decision.old }
    ensures after { entry.new ≡ told_entry (decide_answer archive.now request.now) entry.old }
    ensures place_after { place.new ≡ told_place (decide_answer archive.now request.now) place.old }
{
    let asked = request::request_from(request).ok_or(NO_WORDS);
    let answer = asked.and_then(|request| barring::decide(archive, request));
    tell(answer.map(verdict), decision, entry, place)
}

// The same without unpacking: the second engine walks the part's bits in the archive.
#[tactic(auto, unfolding(words::specs::RequestWords::given_request, crate::specs::Calls::decide_answer))]
pub fn boc_decide_in_place(
    archive: &[u8],
    request: &[u32],
    decision: &mut u32,
    entry: &mut usize,
    place: &mut usize,
) -> u32
    ensures value { result ≡ told_number (decide_answer archive.now request.now) }
    ensures decision_after { decision.new ≡ decided_verdict (decide_answer archive.now request.now) decision.old }
    ensures after { entry.new ≡ told_entry (decide_answer archive.now request.now) entry.old }
    ensures place_after { place.new ≡ told_place (decide_answer archive.now request.now) place.old }
{
    let asked = request::request_from(request).ok_or(NO_WORDS);
    let walked = asked.and_then(|request| in_place::decide(archive, request));
    tell(walked.map(verdict), decision, entry, place)
}

// Lists an archive as text; its length in bytes goes to `length`.
pub fn boc_contents(
    archive: &[u8],
    out: &mut [u8],
    length: &mut usize,
    entry: &mut usize,
    place: &mut usize,
) -> u32
    ensures value { result ≡ told_number (contents_answer archive.now out.old) }
    ensures out_after { out.new ≡ list_out archive.now out.old }
    ensures length_after { length.new ≡ stored_length (contents_answer archive.now out.old) length.old }
    ensures after { entry.new ≡ told_entry (contents_answer archive.now out.old) entry.old }
    ensures place_after { place.new ≡ told_place (contents_answer archive.now out.old) place.old }
{
    let answer = listing::list(archive, out);
    tell(answer, length, entry, place)
}
