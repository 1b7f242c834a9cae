// The archive of INTERROGATE ACKs: an empty one, capture into it, restore from it (document 01, "The archive").
#![tactic(auto)]

mod checking;
mod contents;
mod copying;
mod filing;
pub mod listing;
mod refusal;

ghost use Rattle.std.specs.Prelude.{◌≡◌, ◌+◌, ◌≤◌, length, take, drop, leb, Ok, Err};
ghost use Rattle.bits.specs.Bits.{pick};
ghost use Rattle.bits.specs.Frame.{bytes_for};
ghost use Rattle.archive.specs.Model.{bytes_of};
ghost use Rattle.archive.specs.Refusals.{plain};
ghost use Rattle.archive.specs.Inner.{EntryFits, filed_in};
ghost use Rattle.archive.specs.Keeping.{leaves, empty_is, empty_out, placed, capture_is, capture_out};
ghost use Rattle.archive.specs.Restoring.{entry_is, fetch_is, restores, restore_is, restore_out};

use bits::BitCount;
use checking::Archive;
pub use checking::check;
pub use contents::{Entry, Key, home, in_range};
pub use refusal::Refusal;

// The length in bits of a PDU that was written from an archive, and the day on which it was taken.
#[derive(Clone, Copy)]
pub struct Restored {
    pub bits: BitCount,
    pub day: u32,
}

// Where the body of a held PDU begins in the archive, its length in bits, and its day.
#[derive(Clone, Copy)]
pub struct Body {
    pub off: usize,
    pub bits: BitCount,
    pub day: u32,
}

impl Body {
    // Its bytes in the archive.
    fn bytes(self, archive: &[u8]) -> &[u8]
        requires { self.off + bytes_for self.bits.0 ≤ length archive.now }
        ensures { result.now ≡ take (bytes_for self.bits.0) (drop self.off archive.now) }
    {
        &archive[self.off..self.off + self.bits.bytes()]
    }

    // Writes them to the front of the lent buffer; answers with the day too.
    fn deliver(self, archive: &[u8], out: &mut [u8]) -> Result<Restored, Refusal>
        requires { self.off + bytes_for self.bits.0 ≤ length archive.now }
        ensures value { result ≡ pick (leb (bytes_for self.bits.0) (length out.old)) (Ok (record { bits = self.bits; day = self.day })) (Err (plain 8)) }
        ensures out_after { out.new ≡ restores result (take (bytes_for self.bits.0) (drop self.off archive.now)) out.old }
    {
        let bytes = self.bytes(archive);
        if out.len() < bytes.len() {
            return Err(Refusal::plain(8));
        }
        text::append(out, 0, bytes);
        Ok(Restored {
            bits: self.bits,
            day: self.day,
        })
    }
}

// Writes the empty archive of a home network; this, `capture` and `listing::list` answer with the length in bytes of what they write.
pub fn empty(home: u32, out: &mut [u8]) -> Result<usize, Refusal>
    ensures value { result ≡ empty_is home (length out.old) }
    ensures out_after { out.new ≡ empty_out home out.old }
{
    if 16777216 <= home {
        return Err(Refusal::plain(9));
    }
    if out.len() < contents::HEADER {
        return Err(Refusal::plain(8));
    }
    let header = contents::header_bytes(home, 0);
    Ok(text::append(out, 0, &header))
}

// Captures a PDU of n bits that was taken on a day: writes the archive with it to the lent buffer.
pub fn capture(
    archive: &[u8],
    body: &[u8],
    n: BitCount,
    day: u32,
    out: &mut [u8],
) -> Result<usize, Refusal>
    ensures value { result ≡ capture_is archive.now body.now n.0 day (length out.old) }
    ensures out_after { out.new ≡ capture_out archive.now body.now n.0 day out.old }
{
    if 65535 < day {
        return Err(Refusal::plain(9));
    }
    let archive = Archive::checked(archive)?;
    let head = walk::walk(body, n)?;
    let Some(key) = filing::filing_of(archive.home(), head) else {
        return Err(Refusal::plain(6));
    };
    let entry = Entry { key, bits: n, day };
    file(archive, entry, body, out)
}

// Files a body under its entry, in place of what is held for its user and part.
fn file(archive: Archive<'_>, entry: Entry, body: &[u8], out: &mut [u8]) -> Result<usize, Refusal>
    requires { (EntryFits entry) × (length body.now ≡ bytes_for entry.bits.0) }
    ensures value { result ≡ placed (filed_in archive.entry.bytes.now entry body.now) (length out.old) }
    ensures out_after { out.new ≡ leaves result (bytes_of (filed_in archive.entry.bytes.now entry body.now)) out.old }
{
    let place = archive.find(entry.key);
    let count = archive.count() + 1 - place.entries();
    let size = copying::spliced_length(archive.bytes, place, body.len());
    if !contents::within_limits(count, size) {
        return Err(Refusal::plain(8));
    }
    if out.len() < size {
        return Err(Refusal::plain(8));
    }
    Ok(copying::splice(archive.bytes, place, count, entry, body, out))
}

// The contents entry at an index, from 0.
pub fn entry(archive: &[u8], index: usize) -> Result<Entry, Refusal>
    ensures { result ≡ entry_is archive.now index }
{
    let archive = Archive::checked(archive)?;
    if archive.count() <= index {
        return Err(Refusal::plain(11));
    }
    Ok(archive.entry(index))
}

// Finds the body held for a user and part, if there is one.
pub fn fetch(archive: &[u8], key: Key) -> Result<Option<Body>, Refusal>
    ensures { result ≡ fetch_is archive.now key }
{
    let archive = Archive::checked(archive)?;
    if !in_range(key) {
        return Ok(None);
    }
    let place = archive.find(key);
    let body = place.entry.map(|held| Body {
        off: place.off,
        bits: held.bits,
        day: held.day,
    });
    Ok(body)
}

// Restores the PDU held for a user and part: writes its bytes to the lent buffer.
pub fn restore(archive: &[u8], key: Key, out: &mut [u8]) -> Result<Restored, Refusal>
    ensures value { result ≡ restore_is archive.now key (length out.old) }
    ensures out_after { out.new ≡ restore_out archive.now key out.old }
{
    if !in_range(key) {
        return Err(Refusal::plain(9));
    }
    let Some(body) = fetch(archive, key)? else {
        return Err(Refusal::plain(11));
    };
    body.deliver(archive, out)
}
