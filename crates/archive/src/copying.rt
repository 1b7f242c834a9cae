// The bytes of an archive after a capture, written to the lent buffer from the old archive, the new entry and the new body.
ghost use Rattle.std.specs.Prelude.{◌≡◌, ◌+◌, ◌≤◌, ◌<◌, length};
ghost use Rattle.bits.specs.Inner.{Laid};
ghost use Rattle.archive.specs.Model.{header_width, entry_width};
ghost use Rattle.archive.specs.Inner.{Within, EntryFits, front_of, back_of, spliced, back_length, spliced_length};

use crate::checking::Place;
use crate::contents;
use crate::contents::{ENTRY, Entry, HEADER};
use text::append;

// Writes the header, the contents before a place and a new entry.
fn write_front(archive: &[u8], at: usize, count: usize, entry: Entry, out: &mut [u8]) -> usize
    requires { (header_width ≤ at) × (at ≤ length archive.now) × (at + entry_width ≤ length out.old) × (count < 65536) × (EntryFits entry) }
    ensures { Laid out.old 0 (front_of archive.now at count entry) out.new result }
{
    let header = contents::header_bytes(contents::home(archive), count);
    let row = contents::entry_bytes(entry);
    let contents_at = append(out, 0, &header);
    let entry_at = append(out, contents_at, &archive[HEADER..at]);
    append(out, entry_at, &row)
}

// Writes the contents after a place with the bodies before it, a new body, and the bodies after it.
fn write_back(archive: &[u8], place: Place, body: &[u8], at: usize, out: &mut [u8]) -> usize
    requires { (Within place archive.now) × (at + back_length archive.now place (length body.now) ≤ length out.old) }
    ensures { Laid out.old at (back_of archive.now place body.now) out.new result }
{
    let next = place.next();
    let rest = place.rest();
    let body_at = append(out, at, &archive[next..place.off]);
    let rest_at = append(out, body_at, body);
    append(out, rest_at, &archive[rest..])
}

// The length of the archive with a new entry and a body of so many bytes for those at a place.
pub(crate) fn spliced_length(archive: &[u8], place: Place, size: usize) -> usize
    requires { (Within place archive.now) × (size ≤ 65536) }
    ensures { result ≡ spliced_length archive.now place size }
{
    let before = place.off - place.next();
    let after = archive.len() - place.rest();
    place.at + ENTRY + (before + size + after)
}

// Writes the archive with a new entry and body for those at a place; returns its length.
pub(crate) fn splice(
    archive: &[u8],
    place: Place,
    count: usize,
    entry: Entry,
    body: &[u8],
    out: &mut [u8],
) -> usize
    requires within { (Within place archive.now) × (EntryFits entry) × (count < 65536) }
    requires body_in_bounds { spliced_length archive.now place (length body.now) ≤ length out.old }
    ensures { Laid out.old 0 (spliced archive.now place count entry body.now) out.new result }
{
    let back = write_front(archive, place.at, count, entry, out);
    write_back(archive, place, body, back, out)
}
