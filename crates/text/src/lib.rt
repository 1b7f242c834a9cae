// Text in a lent buffer: bytes and decimal numbers laid from a place on, and the decimal field that begins at a place.
#![tactic(auto)]

ghost use Rattle.std.specs.Prelude.{◌≡◌, ◌+◌, ◌≤◌, length, leb};
ghost use Rattle.std.specs.List.{take_while};
ghost use Rattle.std.specs.Char.{is_ascii_digit};
ghost use Rattle.bits.specs.Inner.{Laid};
ghost use Rattle.text.specs.Laying.{end_at, laid_at};
ghost use Rattle.text.specs.Decimal.{decimal, item};
ghost use Rattle.text.specs.Field.{run, number_of, field_at};

// Whether so many bytes have room from a place on.
fn has_room(room: usize, at: usize, size: usize) -> bool
    ensures { result ≡ leb (at + size) room }
{
    at <= room && size <= room - at
}

// Copies bytes to their place within the lent buffer. Returns the place after them. Where there is no room for all of them, this and the
// other writers write nothing and return the place that was given.
pub fn append(out: &mut [u8], at: usize, bytes: &[u8]) -> usize
    ensures value { result ≡ end_at (length out.old) at bytes.now }
    ensures out_after { out.new ≡ laid_at out.old at bytes.now }
    ensures laid { at + length bytes.now ≤ length out.old → Laid out.old at bytes.now out.new result }
{
    if !has_room(out.len(), at, bytes.len()) {
        return at;
    }
    let end = at + bytes.len();
    copy(&mut out[at..end], bytes);
    end
}

// Copies bytes to a part that is as long. By a loop: std's `copy_from_slice` would be a call of `memmove`, which the library for C needs nowhere else.
fn copy(part: &mut [u8], bytes: &[u8])
    requires { length bytes.now ≡ length part.old }
    ensures { part.new ≡ bytes.now }
{
    for i in 0..bytes.len() {
        part[i] = bytes[i];
    }
}

// How many digits a number has.
pub fn digits_of(n: usize) -> usize
    ensures value { result ≡ length (decimal n) }
    ensures bound { result ≤ 20 }
{
    if n < 10 {
        return 1;
    }
    n.ilog10() as usize + 1
}

// Writes the digits of a number between two places, the last one first.
fn write_digits(out: &mut [u8], at: usize, end: usize, n: usize) -> usize
    requires { (end ≡ at + length (decimal n)) × (end ≤ length out.old) }
    ensures { Laid out.old at (decimal n) out.new result }
{
    let mut rest = n;
    for place in (at..end).rev() {
        out[place] = b'0' + (rest % 10) as u8;
        rest /= 10;
    }
    end
}

// Writes a number in decimal and what stands after it; returns the place after both.
pub fn write_item(out: &mut [u8], at: usize, n: usize, word: &[u8]) -> usize
    ensures value { result ≡ end_at (length out.old) at (item n word.now) }
    ensures out_after { out.new ≡ laid_at out.old at (item n word.now) }
    ensures laid { at + length (item n word.now) ≤ length out.old
        → Laid out.old at (item n word.now) out.new result }
{
    let size = digits_of(n);
    if !has_room(out.len(), at, size + word.len()) {
        return at;
    }
    let word_at = write_digits(out, at, at + size, n);
    append(out, word_at, word)
}

// Writes a number in decimal at a place; returns the place after it.
#[tactic(auto, using(crate::proofs::Decimals::item_alone))]
pub fn write_number(out: &mut [u8], at: usize, n: usize) -> usize
    ensures value { result ≡ end_at (length out.old) at (decimal n) }
    ensures out_after { out.new ≡ laid_at out.old at (decimal n) }
{
    write_item(out, at, n, b"")
}

// How many digits stand first.
fn run(s: &[u8]) -> usize
    ensures { result ≡ length (take_while is_ascii_digit s.now) }
{
    s.iter().take_while(|byte| byte.is_ascii_digit()).count()
}

// The number that digits say.
fn number_of(digits: &[u8]) -> u32
    requires { (length digits.now ≤ 9) × (length digits.now ≤ run digits.now) }
    ensures { result ≡ number_of digits.now }
{
    let mut number = 0;
    for digit in digits {
        number = number * 10 + u32::from(*digit - b'0');
    }
    number
}

// The decimal field of 1 to `widest` digits that begins at a place: the number that it says, and the place after it. No field has more
// than nine digits.
pub fn field_at(s: &[u8], at: usize, widest: usize) -> Option<(u32, usize)>
    ensures { result ≡ field_at s.now at widest }
{
    let rest = s.get(at..)?;
    let digits = run(rest);
    if digits < 1 || widest < digits || 9 < digits {
        return None;
    }
    Some((number_of(&rest[..digits]), at + digits))
}
