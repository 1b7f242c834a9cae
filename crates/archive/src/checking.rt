// Whether bytes are an archive, and where a key stands in one: each one pass over the contents.
ghost use Rattle.std.specs.Prelude.{◌≡◌, true, ◌+◌, ◌*◌, ◌≤◌, ◌<◌, length, Err, IfOk, IfErr};
ghost use Rattle.bits.specs.Bits.{Bytes};
ghost use Rattle.archive.specs.Model.{rank_of, header_width, entry_width};
ghost use Rattle.archive.specs.Reading.{home_of, count_of, entry_at, is_archive, bodies_at, held_in};
ghost use Rattle.archive.specs.Checking.{check_is};
ghost use Rattle.archive.specs.Inner.{KeyFits, EntryFits, may_follow, rest_shape, fault_is, seek, entries_in, next_at, rest_at};

use crate::contents::{ENTRY, Entry, HEADER, Key};
use crate::refusal::Refusal;
use crate::{contents, filing};

// Exactly the bytes of a well-formed archive pass. Others get refusal 7: a fault of header, contents or length comes before any body's, and a
// body's names the first entry whose body is at fault.
pub fn check(archive: &[u8]) -> Result<(), Refusal>
    ensures { result ≡ check_is archive.now }
{
    let size = archive.len();
    if size < HEADER {
        return Err(Refusal::plain(7));
    }
    let home = contents::home(archive);
    let count = contents::count(archive);
    if !contents::within_limits(count, size) {
        return Err(Refusal::plain(7));
    }
    let mut off = HEADER + ENTRY * count;
    if size < off {
        return Err(Refusal::plain(7));
    }
    // below each key that is in range
    let mut last = Key {
        network: 0,
        ssi: 0,
        part: 0,
    };
    for index in 0..count {
        let at = HEADER + ENTRY * index;
        let entry = contents::entry_at(archive, at);
        if !may_follow(entry, last, size - off) {
            return Err(Refusal::plain(7));
        }
        let key = entry.key;
        let end = off + entry.bits.bytes();
        if let Err(place) = filing::body_agreement(home, entry, &archive[off..end]) {
            let after = count - index - 1;
            return at_fault(archive, key, after, at + ENTRY, end, index, place);
        }
        last = key;
        off = end;
    }
    if off != size {
        return Err(Refusal::plain(7));
    }
    Ok(())
}

// Refusal 7 by the body at fault of the entry at an index, unless its key or what is left has not the shape of an archive's. A body that
// agrees has a key in range.
fn at_fault(
    archive: &[u8],
    key: Key,
    entries: usize,
    from: usize,
    bodies: usize,
    index: usize,
    place: Option<usize>,
) -> Result<(), Refusal>
    requires entries_in_bounds { (from + entry_width * entries ≤ length archive.now) × (bodies ≤ length archive.now) × (length archive.now ≤ 65536) }
    requires key_fits { KeyFits key }
    ensures { result ≡ fault_is archive.now key entries from bodies index place }
{
    if !contents::in_range(key) {
        return Err(Refusal::plain(7));
    }
    if !rest_has_shape(archive, entries, from, bodies, key) {
        return Err(Refusal::plain(7));
    }
    Err(Refusal {
        number: 7,
        entry: Some(index),
        place,
    })
}

// Whether an entry may stand here: its key is above the last one, and there is room for its body.
fn may_follow(entry: Entry, last: Key, room: usize) -> bool
    requires entry_fits { EntryFits entry }
    requires last_fits { KeyFits last }
    ensures { result ≡ may_follow entry (rank_of last) room }
{
    if entry.key <= last {
        return false;
    }
    entry.bits.bytes() <= room
}

// Whether the entries that are left, whatever their bodies, have the shape of an archive's.
fn rest_has_shape(archive: &[u8], entries: usize, from: usize, bodies: usize, key: Key) -> bool
    requires entries_in_bounds { (from + entry_width * entries ≤ length archive.now) × (bodies ≤ length archive.now) × (length archive.now ≤ 65536) }
    requires key_fits { KeyFits key }
    ensures { result ≡ rest_shape archive.now (rank_of key) entries from bodies }
{
    let mut off = bodies;
    let mut last = key;
    for index in 0..entries {
        let entry = contents::entry_at(archive, from + ENTRY * index);
        if !may_follow(entry, last, archive.len() - off) {
            return false;
        }
        last = entry.key;
        if !contents::in_range(last) {
            return false;
        }
        off += entry.bits.bytes();
    }
    off == archive.len()
}

// A contents place and a body place: those of a key's entry, with that entry; or where they would go.
#[derive(Clone, Copy)]
pub struct Place {
    pub at: usize,
    pub off: usize,
    pub entry: Option<Entry>,
}

impl Place {
    // How many entries stand here: one or none.
    pub(crate) fn entries(self) -> usize
        ensures { result ≡ entries_in self.entry }
    {
        usize::from(self.entry.is_some())
    }

    // Where the contents, and where the bodies, go on behind it.
    pub(crate) fn next(self) -> usize
        requires { next_at self ≤ 65536 }
        ensures { result ≡ next_at self }
    {
        self.at + ENTRY * self.entries()
    }

    pub(crate) fn rest(self) -> usize
        requires { rest_at self ≤ 65536 }
        ensures { result ≡ rest_at self }
    {
        self.off + self.entry.map_or(0, |entry| entry.bits.bytes())
    }
}

// The bytes of an archive: only what passes the check is one. That each is below 256 is said beside it, since a proof knows it of a slice alone.
#[derive(Clone, Copy)]
pub(crate) struct Archive<'a> {
    pub(crate) bytes: &'a [u8],
    pub(crate) ghost passed: { is_archive bytes.now ≡ true },
    pub(crate) ghost fit: { Bytes bytes.now },
}

impl<'a> Archive<'a> {
    pub(crate) fn checked(bytes: &'a [u8]) -> Result<Archive<'a>, Refusal>
        ensures same { IfOk result (λ archive. archive.bytes.now ≡ bytes.now) }
        ensures refused { IfErr result (λ refusal. check_is bytes.now ≡ Err refusal) }
    {
        check(bytes)?;
        Ok(Archive { bytes })
    }

    pub(crate) fn home(self) -> u32
        ensures { result ≡ home_of self.entry.bytes.now }
    {
        contents::home(self.bytes)
    }

    pub(crate) fn count(self) -> usize
        ensures { (result ≡ count_of self.entry.bytes.now) × (result ≤ 512) }
    {
        contents::count(self.bytes)
    }

    // The contents entry at an index, from 0.
    pub(crate) fn entry(self, index: usize) -> Entry
        requires { index < count_of self.bytes.now }
        ensures { (result ≡ entry_at self.entry.bytes.now (header_width + entry_width * index)) × (EntryFits result) }
    {
        contents::entry_at(self.bytes, HEADER + ENTRY * index)
    }

    // The place of a key.
    pub(crate) fn find(self, key: Key) -> Place
        requires { KeyFits key }
        ensures { result ≡ seek (rank_of key) header_width (bodies_at self.entry.bytes.now) (held_in self.entry.bytes.now) }
    {
        let count = self.count();
        let contents_end = HEADER + ENTRY * count;
        let mut off = contents_end;
        for index in 0..count {
            let at = HEADER + ENTRY * index;
            let entry = self.entry(index);
            if entry.key == key {
                return Place {
                    at,
                    off,
                    entry: Some(entry),
                };
            }
            if key < entry.key {
                return Place {
                    at,
                    off,
                    entry: None,
                };
            }
            off += entry.bits.bytes();
        }
        Place {
            at: contents_end,
            off,
            entry: None,
        }
    }
}
