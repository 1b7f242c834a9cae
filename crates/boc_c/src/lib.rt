// What a C program links, as include/boc.h declares it: each call of the crate boc under its own name, with its clauses.
#![tactic(auto)]

ghost use Rattle.std.specs.Prelude.{◌≡◌, length};
ghost use Rattle.reader.specs.Words.{read_words};
ghost use Rattle.archive.specs.Keeping.{empty_out, capture_out};
ghost use Rattle.archive.specs.Restoring.{restore_out};
ghost use Rattle.archive.specs.Listing.{list_out};
ghost use Rattle.boc.specs.Calls.{told_number, told_entry, told_place, read_number, read_place, write_number, write_out, write_bits};
ghost use Rattle.boc.specs.Calls.{empty_number, empty_length, stored_length, capture_answer, contents_answer};
ghost use Rattle.boc.specs.Calls.{listed_key, listed_length, listed_day, entry_answer};
ghost use Rattle.boc.specs.Calls.{key_of, restored_length, restored_day, restore_answer};
ghost use Rattle.boc.specs.Calls.{reloaded_length, reload_answer, reload_leaves, external_answer, external_leaves};
ghost use Rattle.boc.specs.Calls.{decided_verdict, decide_answer};
ghost use Rattle.terminals.specs.Profiles.{reset_is, reset_out};
ghost use Rattle.terminals.specs.Answers.{table_after, out_after};
ghost use Rattle.boc.specs.Serial.{returned, line_answer, line_length};

// Reads the PDU of `bits` bits in `pdu`; its record goes to `record`.
#[unsafe(no_mangle)]
pub extern "C" fn boc_read(pdu: &[u8], bits: usize, record: &mut [u32], place: &mut usize) -> u32
    ensures value { result ≡ read_number pdu.now bits (length «record».old) }
    ensures record_after { «record».new ≡ read_words pdu.now bits «record».old }
    ensures place_after { place.new ≡ read_place pdu.now bits (length «record».old) place.old }
{
    boc::boc_read(pdu, bits, record, place)
}

// Writes a record as a PDU; its length in bits goes to `bits`.
#[unsafe(no_mangle)]
pub extern "C" fn boc_write(record: &[u32], out: &mut [u8], bits: &mut usize) -> u32
    ensures value { result ≡ write_number «record».now out.old }
    ensures out_after { out.new ≡ write_out «record».now out.old }
    ensures bits_after { bits.new ≡ write_bits «record».now out.old bits.old }
{
    boc::boc_write(record, out, bits)
}

// Writes the empty archive of a home network; its length in bytes goes to `length`.
#[unsafe(no_mangle)]
pub extern "C" fn boc_empty(home: u32, out: &mut [u8], length: &mut usize) -> u32
    ensures value { result ≡ empty_number home out.old }
    ensures out_after { out.new ≡ empty_out home out.old }
    ensures length_after { length.new ≡ empty_length home out.old length.old }
{
    boc::boc_empty(home, out, length)
}

// Captures the PDU of `bits` bits in `pdu`, taken on `day`: writes the new archive; its length in bytes goes to `length`.
#[unsafe(no_mangle)]
pub extern "C" fn boc_capture(
    archive: &[u8],
    pdu: &[u8],
    bits: usize,
    day: u32,
    out: &mut [u8],
    length: &mut usize,
    entry: &mut usize,
    place: &mut usize,
) -> u32
    ensures value { result ≡ told_number (capture_answer archive.now pdu.now bits day out.old) }
    ensures out_after { out.new ≡ capture_out archive.now pdu.now bits day out.old }
    ensures length_after { length.new ≡ stored_length (capture_answer archive.now pdu.now bits day out.old) length.old }
    ensures after { entry.new ≡ told_entry (capture_answer archive.now pdu.now bits day out.old) entry.old }
    ensures place_after { place.new ≡ told_place (capture_answer archive.now pdu.now bits day out.old) place.old }
{
    boc::boc_capture(archive, pdu, bits, day, out, length, entry, place)
}

// The entry at an index: network, SSI and part go to `key`, the length in bits to `bits`, the day to `day`.
#[unsafe(no_mangle)]
pub extern "C" fn boc_entry(
    archive: &[u8],
    index: usize,
    key: &mut [u32],
    bits: &mut usize,
    day: &mut u32,
    entry: &mut usize,
    place: &mut usize,
) -> u32
    ensures value { result ≡ told_number (entry_answer archive.now index (length key.old)) }
    ensures key_after { key.new ≡ listed_key (entry_answer archive.now index (length key.old)) key.old }
    ensures bits_after { bits.new ≡ listed_length (entry_answer archive.now index (length key.old)) bits.old }
    ensures day_after { day.new ≡ listed_day (entry_answer archive.now index (length key.old)) day.old }
    ensures after { entry.new ≡ told_entry (entry_answer archive.now index (length key.old)) entry.old }
    ensures place_after { place.new ≡ told_place (entry_answer archive.now index (length key.old)) place.old }
{
    boc::boc_entry(archive, index, key, bits, day, entry, place)
}

// Restores the PDU held for a user and part; its length in bits goes to `bits`, its day to `day`.
#[unsafe(no_mangle)]
pub extern "C" fn boc_restore(
    archive: &[u8],
    network: u32,
    ssi: u32,
    part: u32,
    out: &mut [u8],
    bits: &mut usize,
    day: &mut u32,
    entry: &mut usize,
    place: &mut usize,
) -> u32
    ensures value { result ≡ told_number (restore_answer archive.now network ssi part out.old) }
    ensures out_after { out.new ≡ restore_out archive.now (key_of network ssi part) out.old }
    ensures bits_after { bits.new ≡ restored_length (restore_answer archive.now network ssi part out.old) bits.old }
    ensures day_after { day.new ≡ restored_day (restore_answer archive.now network ssi part out.old) day.old }
    ensures after { entry.new ≡ told_entry (restore_answer archive.now network ssi part out.old) entry.old }
    ensures place_after { place.new ≡ told_place (restore_answer archive.now network ssi part out.old) place.old }
{
    boc::boc_restore(archive, network, ssi, part, out, bits, day, entry, place)
}

// Writes the DEFINE of the part held for a user; its length in bits goes to `bits`.
#[unsafe(no_mangle)]
pub extern "C" fn boc_reload(
    archive: &[u8],
    network: u32,
    ssi: u32,
    part: u32,
    definition: u32,
    delivery: u32,
    acknowledgement: u32,
    out: &mut [u8],
    bits: &mut usize,
    entry: &mut usize,
    place: &mut usize,
) -> u32
    ensures value { result ≡ told_number (reload_answer archive.now network ssi part definition delivery acknowledgement out.old) }
    ensures out_after { out.new ≡ reload_leaves archive.now network ssi part definition delivery acknowledgement out.old }
    ensures bits_after { bits.new ≡ reloaded_length (reload_answer archive.now network ssi part definition delivery acknowledgement out.old) bits.old }
    ensures after { entry.new ≡ told_entry (reload_answer archive.now network ssi part definition delivery acknowledgement out.old) entry.old }
    ensures place_after { place.new ≡ told_place (reload_answer archive.now network ssi part definition delivery acknowledgement out.old) place.old }
{
    boc::boc_reload(
        archive,
        network,
        ssi,
        part,
        definition,
        delivery,
        acknowledgement,
        out,
        bits,
        entry,
        place,
    )
}

// Writes the DEFINE EXTERNAL of the number part held for a user; its length in bits goes to `bits`.
#[unsafe(no_mangle)]
pub extern "C" fn boc_reload_external(
    archive: &[u8],
    network: u32,
    ssi: u32,
    definition: u32,
    delivery: u32,
    acknowledgement: u32,
    out: &mut [u8],
    bits: &mut usize,
    entry: &mut usize,
    place: &mut usize,
) -> u32
    ensures value { result ≡ told_number (external_answer archive.now network ssi definition delivery acknowledgement out.old) }
    ensures out_after { out.new ≡ external_leaves archive.now network ssi definition delivery acknowledgement out.old }
    ensures bits_after { bits.new ≡ reloaded_length (external_answer archive.now network ssi definition delivery acknowledgement out.old) bits.old }
    ensures after { entry.new ≡ told_entry (external_answer archive.now network ssi definition delivery acknowledgement out.old) entry.old }
    ensures place_after { place.new ≡ told_place (external_answer archive.now network ssi definition delivery acknowledgement out.old) place.old }
{
    boc::boc_reload_external(
        archive,
        network,
        ssi,
        definition,
        delivery,
        acknowledgement,
        out,
        bits,
        entry,
        place,
    )
}

// Decides a request; the decision goes to `decision`: 0 to 2 barred with that cause, 3 allowed, 4 not held.
#[unsafe(no_mangle)]
pub extern "C" fn boc_decide(
    archive: &[u8],
    request: &[u32],
    decision: &mut u32,
    entry: &mut usize,
    place: &mut usize,
) -> u32
    ensures value { result ≡ told_number (decide_answer archive.now request.now) }
    ensures decision_after { decision.new ≡ decided_verdict (decide_answer archive.now request.now) decision.old }
    ensures after { entry.new ≡ told_entry (decide_answer archive.now request.now) entry.old }
    ensures place_after { place.new ≡ told_place (decide_answer archive.now request.now) place.old }
{
    boc::boc_decide(archive, request, decision, entry, place)
}

// The same without unpacking: the second engine walks the part's bits in the archive.
#[unsafe(no_mangle)]
pub extern "C" fn boc_decide_in_place(
    archive: &[u8],
    request: &[u32],
    decision: &mut u32,
    entry: &mut usize,
    place: &mut usize,
) -> u32
    ensures value { result ≡ told_number (decide_answer archive.now request.now) }
    ensures decision_after { decision.new ≡ decided_verdict (decide_answer archive.now request.now) decision.old }
    ensures after { entry.new ≡ told_entry (decide_answer archive.now request.now) entry.old }
    ensures place_after { place.new ≡ told_place (decide_answer archive.now request.now) place.old }
{
    boc::boc_decide_in_place(archive, request, decision, entry, place)
}

// Lists an archive as text; its length in bytes goes to `length`.
#[unsafe(no_mangle)]
pub extern "C" fn boc_contents(
    archive: &[u8],
    out: &mut [u8],
    length: &mut usize,
    entry: &mut usize,
    place: &mut usize,
) -> u32
    ensures value { result ≡ told_number (contents_answer archive.now out.old) }
    ensures out_after { out.new ≡ list_out archive.now out.old }
    ensures length_after { length.new ≡ stored_length (contents_answer archive.now out.old) length.old }
    ensures after { entry.new ≡ told_entry (contents_answer archive.now out.old) entry.old }
    ensures place_after { place.new ≡ told_place (contents_answer archive.now out.old) place.old }
{
    boc::boc_contents(archive, out, length, entry, place)
}

// Sets every place of a table to the profile "both".
#[unsafe(no_mangle)]
pub extern "C" fn boc_terminal_reset(table: &mut [u8]) -> u32
    ensures value { result ≡ returned (reset_is (length table.old)) }
    ensures table_after { table.new ≡ reset_out table.old }
{
    boc::serial::boc_terminal_reset(table)
}

// Takes a line: a set line changes the table, the read form writes to `out`; the text's length in bytes goes to `length`.
#[unsafe(no_mangle)]
pub extern "C" fn boc_terminal_line(
    line: &[u8],
    table: &mut [u8],
    out: &mut [u8],
    length: &mut usize,
) -> u32
    ensures value { result ≡ returned (line_answer line.now table.old out.old) }
    ensures table_after { table.new ≡ table_after line.now table.old }
    ensures out_after { out.new ≡ out_after line.now table.old out.old }
    ensures length_after { length.new
        ≡ line_length (line_answer line.now table.old out.old) length.old }
{
    boc::serial::boc_terminal_line(line, table, out, length)
}
