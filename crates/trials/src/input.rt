// Numbers and bytes of a line.
ghost use Rattle.std.specs.Prelude.{◌-◌, ◌<◌, ◌≤◌, length};

use std::array;

// What is still to be read of a line.
#[derive(Clone, Copy)]
pub struct Words<'a> {
    pub rest: &'a [u8],
}

impl<'a> Words<'a> {
    // All of a line.
    pub(crate) fn of(line: &'a [u8]) -> Words<'a> {
        Words { rest: line }
    }

    // What a line has behind its first word, which is known by some of its letters: the others may be any.
    pub(crate) fn after(word: &str, line: &'a [u8]) -> Words<'a> {
        Words {
            rest: line.get(word.len()..).unwrap_or(&[]),
        }
    }

    // The decimal number that comes next, with the character that ends it: 0 where there is none.
    pub(crate) fn number(&mut self) -> u32
        ensures { length self.new.rest.now ≤ length self.old.rest.now - 1 }
    {
        let s = self.rest;
        let end = s
            .iter()
            .position(|c| !c.is_ascii_digit())
            .unwrap_or(s.len());
        self.rest = s.get(end + 1..).unwrap_or(&[]);
        s[..end]
            .iter()
            .fold(0, |value, digit| and_digit(value, *digit))
    }

    // The decimal numbers that come next.
    pub(crate) fn numbers<const N: usize>(&mut self) -> [u32; N] {
        array::from_fn(|_| self.number())
    }

    // Puts the bytes that the hexadecimal digits of the rest spell in a buffer, as many as it holds, and gives their number.
    pub(crate) fn bytes(&self, out: &mut [u8]) -> usize
        ensures { result ≤ length out.new }
    {
        let (pairs, _) = self.rest.as_chunks::<2>();
        for (place, [high, low]) in out.iter_mut().zip(pairs) {
            *place = digit(*high) * 16 + digit(*low);
        }
        pairs.len().min(out.len())
    }
}

// A number with one digit more, as far as 32 bits go.
fn and_digit(value: u32, c: u8) -> u32 {
    if value < u32::MAX / 10 {
        value * 10 + digit(c) as u32
    } else {
        u32::MAX
    }
}

// The value of a hexadecimal digit, 0 for any other character.
fn digit(c: u8) -> u8
    ensures { result < 16 }
{
    match c {
        b'0'..=b'9' => c - b'0',
        b'a'..=b'f' => c - b'a' + 10,
        _ => 0,
    }
}
