// Bits of bytes, most significant first: a cursor that takes elements, a function that puts one in its place,
// the counts of bits and digits, and the frame of a PDU (document 01, "The two PDUs").
#![tactic(auto)]

ghost use Rattle.std.specs.Prelude.{◌≡◌, ◌+◌, ◌-◌, ◌*◌, ◌/◌, ◌%◌, ◌^◌, ◌≤◌, ◌<◌, min, ◌++◌, length, take, drop, replicate};
ghost use Rattle.bits.specs.Bits.{bits, bits_of, value, splice};
ghost use Rattle.bits.specs.Frame.{bytes_for, framed};
ghost use Rattle.bits.specs.Element.{taken_at, window_at, has_room, put_at, has_eight, lay_at};

// A length in bits: a PDU's.
#[derive(Clone, Copy)]
pub struct BitCount(pub usize);

// A length in digits, of four bits each: an external number's.
#[derive(Clone, Copy)]
pub struct DigitCount(pub u8);

impl DigitCount {
    pub fn bits(self) -> BitCount
        ensures { result.0 ≡ 4 * self.0 }
    {
        BitCount(4 * (self.0 as usize))
    }
}

impl BitCount {
    // The number of bytes that hold so many bits.
    pub fn bytes(self) -> usize
        ensures { result ≡ bytes_for self.0 }
    {
        self.0.div_ceil(8)
    }
}

// A place among the bits of a PDU.
#[derive(Clone, Copy)]
pub struct Cursor {
    pub at: usize,
}

impl Cursor {
    // The element of `width` bits, 1 to 32, of the PDU of n bits in s, and the cursor after it; none if the PDU ends before or inside it.
    // No element is wider or narrower.
    pub fn take(self, s: &[u8], n: BitCount, width: usize) -> Option<(u32, Cursor)>
        ensures { result ≡ taken_at s.now n.0 self.at width }
    {
        let at = self.at;
        let end = n.0;
        if width == 0 {
            return None;
        }
        if 32 < width {
            return None;
        }
        if end < at {
            return None;
        }
        if end - at < width {
            return None;
        }
        let next = at + width;
        if s.len() < BitCount(next).bytes() {
            return None;
        }
        Some(((window(s, at) >> (57 - width)) as u32, Cursor { at: next }))
    }
}

// The number that the 57 bits from a place on are; zeros stand for those after the end.
pub fn window(s: &[u8], at: usize) -> u64
    ensures { result ≡ window_at s.now at }
{
    if s.len() < 8 {
        return window_of(&padded(s), at);
    }
    window_of(s, at)
}

// The same where there are eight bytes: the bits are among the eight from theirs on, or among the last eight.
fn window_of(s: &[u8], at: usize) -> u64
    requires { 8 ≤ length s.now }
    ensures { result ≡ window_at s.now at }
{
    let first = (at / 8).min(s.len() - 8);
    let into = at - 8 * first;
    if 63 < into {
        return 0;
    }
    (eight(s, first) << into) >> 7u32
}

// Fewer than eight bytes, and zeros after them.
fn padded(s: &[u8]) -> [u8; 8]
    requires { length s.now ≤ 8 }
    ensures { result ≡ s.now ++ replicate (8 - length s.now) 0 }
{
    let mut held = [0u8; 8];
    held[..s.len()].copy_from_slice(s);
    held
}

// The number that the bits of eight bytes are: a single load.
fn eight(s: &[u8], from: usize) -> u64
    requires { from + 8 ≤ length s.now }
    ensures { result ≡ value (bits (take 8 (drop from s.now))) }
{
    let mut held = [0u8; 8];
    held.copy_from_slice(&s[from..from + 8]);
    u64::from_be_bytes(held)
}

// The bit at a place; 0 after the end.
pub fn bit_at(s: &[u8], at: usize) -> usize
    ensures { result ≡ value (take 1 (drop at (bits s.now))) }
{
    if s.len() <= at / 8 {
        return 0;
    }
    ((s[at / 8] >> (7 - at % 8)) % 2) as usize
}

// Puts the `width` low bits of an element at `at`, and says whether there was room; without it no bit changes.
// There is room for up to 57 bits: eight bytes hold so many from any place in their first on.
pub fn put(buf: &mut [u8], at: usize, width: usize, element: u64) -> bool
    ensures { (result ≡ has_room buf.old at width) × (bits buf.new ≡ put_at buf.old at width element) }
{
    if 57 < width {
        return false;
    }
    if buf.len() < at / 8 {
        return false;
    }
    if buf.len() - at / 8 < (at % 8 + width + 7) / 8 {
        return false;
    }
    if width == 0 {
        return true;
    }
    if buf.len() < 8 {
        put_short(buf, at, width, element);
        return true;
    }
    put_within(buf, at, width, element);
    true
}

// The same where there is room in fewer than eight bytes.
fn put_short(buf: &mut [u8], at: usize, width: usize, element: u64)
    requires { (length buf.old ≤ 8) × (1 ≤ width) × (width ≤ 57) × (at + width ≤ 8 * length buf.old) }
    ensures { bits buf.new ≡ splice (bits buf.old) at (bits_of width element) }
{
    let mut held = padded(buf);
    put_within(&mut held, at, width, element);
    buf.copy_from_slice(&held[..buf.len()]);
}

// And in eight or more: the bits are among the eight bytes from theirs on, or among the last eight.
fn put_within(buf: &mut [u8], at: usize, width: usize, element: u64)
    requires { (8 ≤ length buf.old) × (1 ≤ width) × (width ≤ 57) × (at + width ≤ 8 * length buf.old) }
    ensures { bits buf.new ≡ splice (bits buf.old) at (bits_of width element) }
{
    let first = (at / 8).min(buf.len() - 8);
    let after = 64 - (at - 8 * first) - width;
    let old = eight(buf, first);
    set_eight(buf, first, with_field(old, width, after, element));
}

// A number with the n bits that have k bits after them replaced by the n low bits of f. By masks, so that a tool that follows single bits
// sees that nothing is left of those replaced.
fn with_field(x: u64, n: usize, k: usize, f: u64) -> u64
    requires { (n < 64) × (k < 64) × (n + k ≤ 64) }
    ensures { result ≡ (x / 2 ^ (n + k) * 2 ^ n + f % 2 ^ n) * 2 ^ k + x % 2 ^ k }
{
    let ones = pow2(n) - 1;
    (x & !(ones << k)) | ((f & ones) << k)
}

// The same for elements that stand one after another: only the first of eight bytes is read, and zeros follow the element to their end.
// Where fewer than eight stand from its own on, it is put.
pub fn lay(buf: &mut [u8], at: usize, width: usize, element: u64) -> bool
    ensures { (result ≡ has_room buf.old at width) × (bits buf.new ≡ lay_at buf.old at width element) }
{
    if !has_eight(buf.len(), at, width) {
        return put(buf, at, width, element);
    }
    let first = at / 8;
    let held = buf[first];
    set_eight(buf, first, laid(held, at % 8, width, element));
    true
}

// Whether up to 57 bits are within eight of so many bytes, the first of them in the first.
fn has_eight(count: usize, at: usize, width: usize) -> bool
    ensures { result ≡ has_eight count at width }
{
    if 57 < width {
        return false;
    }
    at / 8 + 8 <= count
}

// The first r bits of a byte, the n low bits of f, and zeros: 64 bits.
fn laid(held: u8, r: usize, n: usize, f: u64) -> u64
    requires { (r < 8) × (n ≤ 57) }
    ensures { bits_of 64 result ≡ bits_of r (held / 2 ^ (8 - r)) ++ (bits_of n f ++ bits_of (64 - r - n) 0) }
{
    let size = pow2(n);
    let high = (held as u64) >> (8 - r);
    ((high * size + f % size) << (57 - n)) << (7 - r)
}

// The bits of eight bytes become those of a number: a single store.
fn set_eight(buf: &mut [u8], from: usize, x: u64)
    requires { from + 8 ≤ length buf.old }
    ensures { bits buf.new ≡ splice (bits buf.old) (8 * from) (bits_of 64 x) }
{
    buf[from..from + 8].copy_from_slice(&x.to_be_bytes());
}

fn pow2(n: usize) -> u64
    requires { n < 64 }
    ensures { result ≡ 2 ^ n }
{
    1u64 << n
}

// The lesser of two numbers.
pub fn least(a: usize, b: usize) -> usize
    ensures { result ≡ min a b }
{
    if a < b { a } else { b }
}

// Refusal 1 is for what is not framed: at most 4,096 bits, exactly the bytes that hold them, zero in the unused bits.
pub fn is_framed(s: &[u8], n: BitCount) -> bool
    ensures { result ≡ framed s.now n.0 }
{
    let count = n.0;
    if 4096 < count {
        return false;
    }
    if s.len() != n.bytes() {
        return false;
    }
    let used = count % 8;
    if used == 0 {
        return true;
    }
    let last = count / 8;
    (s[last] as u64) % pow2(8 - used) == 0
}
