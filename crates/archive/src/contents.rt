// The numbers, the header and the entries of an archive: their widths and their order.
ghost use Rattle.std.specs.Prelude.{◌≡◌, ◌+◌, ◌≤◌, ◌<◌, length};
ghost use Rattle.archive.specs.Model.{in_range, bytes3, header_width, entry_width, header_bytes, entry_bytes, within_limits};
ghost use Rattle.archive.specs.Reading.{number2, number3, home_of, entry_at};
ghost use Rattle.archive.specs.Inner.{EntryFits};

use bits::BitCount;

// Bytes of the header, and of an entry of the contents.
pub(crate) const HEADER: usize = 5;

pub(crate) const ENTRY: usize = 11;

// A user, by network and SSI, and a part: 1 for identities, 2 for numbers. Entries rise by network, then SSI, then part.
#[derive(Clone, Copy, PartialEq, Eq, PartialOrd, Ord)]
pub struct Key {
    pub network: u32,
    pub ssi: u32,
    pub part: u32,
}

// A contents entry: a key, the bit length of its PDU, and the day on which that was taken, below 65,536.
#[derive(Clone, Copy)]
pub struct Entry {
    pub key: Key,
    pub bits: BitCount,
    pub day: u32,
}

// Whether a user and part are in range.
pub fn in_range(key: Key) -> bool
    ensures { result ≡ in_range key }
{
    if 16777216 <= key.network {
        return false;
    }
    if 16777216 <= key.ssi {
        return false;
    }
    if key.part < 1 {
        return false;
    }
    key.part <= 2
}

// The limits of an archive: entries and bytes.
pub(crate) fn within_limits(count: usize, size: usize) -> bool
    ensures { result ≡ within_limits count size }
{
    if 512 < count {
        return false;
    }
    size <= 65536
}

fn two(b: &[u8], at: usize) -> usize
    requires { at + 2 ≤ length b.now }
    ensures { (result ≡ number2 b.now at) × (result < 65536) }
{
    u16::from_be_bytes([b[at], b[at + 1]]) as usize
}

fn three(b: &[u8], at: usize) -> u32
    requires { at + 3 ≤ length b.now }
    ensures { (result ≡ number3 b.now at) × (result < 16777216) }
{
    u32::from_be_bytes([0, b[at], b[at + 1], b[at + 2]])
}

// A network or an SSI as three bytes, the most significant first.
fn three_bytes(n: u32) -> [u8; 3]
    requires { n < 16777216 }
    ensures { result ≡ bytes3 n }
{
    let [_, high, middle, low] = n.to_be_bytes();
    [high, middle, low]
}

// The home network in the header; 0 where there is none.
pub fn home(archive: &[u8]) -> u32
    ensures { result ≡ home_of archive.now }
{
    if archive.len() < HEADER {
        return 0;
    }
    three(archive, 0)
}

// The entry count in the header.
pub(crate) fn count(archive: &[u8]) -> usize
    requires { header_width ≤ length archive.now }
    ensures { (result ≡ number2 archive.now 3) × (result < 65536) }
{
    two(archive, 3)
}

// The header of a home network and an entry count.
pub(crate) fn header_bytes(home: u32, count: usize) -> [u8; HEADER]
    requires { (home < 16777216) × (count < 65536) }
    ensures { result ≡ header_bytes home count }
{
    let [h0, h1, h2] = three_bytes(home);
    let [c0, c1] = (count as u16).to_be_bytes();
    [h0, h1, h2, c0, c1]
}

// The contents entry at a place.
pub(crate) fn entry_at(b: &[u8], at: usize) -> Entry
    requires { at + entry_width ≤ length b.now }
    ensures { (result ≡ entry_at b.now at) × (EntryFits result) }
{
    let key = Key {
        network: three(b, at),
        ssi: three(b, at + 3),
        part: u32::from(b[at + 6]),
    };
    Entry {
        key,
        bits: BitCount(two(b, at + 7)),
        day: two(b, at + 9) as u32,
    }
}

pub(crate) fn entry_bytes(entry: Entry) -> [u8; ENTRY]
    requires { EntryFits entry }
    ensures { result ≡ entry_bytes entry }
{
    let key = entry.key;
    let [n0, n1, n2] = three_bytes(key.network);
    let [s0, s1, s2] = three_bytes(key.ssi);
    let [b0, b1] = (entry.bits.0 as u16).to_be_bytes();
    let [d0, d1] = (entry.day as u16).to_be_bytes();
    [n0, n1, n2, s0, s1, s2, key.part as u8, b0, b1, d0, d1]
}
