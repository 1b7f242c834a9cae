// Numbers taken from the bits of a legal PDU, and codes put in words.
ghost use Rattle.std.specs.Prelude.{◌≡◌, [], ◌∷◌, ◌+◌, ◌*◌, ◌^◌, ◌≤◌, ◌<◌, length};
ghost use Rattle.bits.specs.Bits.{bits};
ghost use Rattle.codec.specs.Parts.{number};
ghost use Rattle.reader.specs.Inner.{Read, Reads, held_in, codes_in};

// The number of `width` bits at a place.
pub(crate) fn number_at(s: &[u8], at: usize, width: usize) -> u32
    requires { (1 ≤ width) × (width ≤ 32) × Reads (number width) (bits s.now) at }
    ensures { Read (number width) (bits s.now) at result (at + width) }
{
    (bits::window(s, at) >> (57 - width)) as u32
}

// The `used` bits after the first `skip` of a window, and zeros after them: `whole` bits, below those that were skipped.
pub(crate) fn held(window: u64, skip: usize, whole: usize, used: usize) -> u64
    requires { (window < 2 ^ 57) × (used ≤ whole) × (skip + whole ≤ 57) }
    ensures { result ≡ held_in window skip whole used }
{
    (window >> (57 - skip - used)) << (whole - used)
}

// Three words, stored one by one: a copy would go by a length that the compiler does not know.
pub(crate) fn put_three(words: &mut [u32], first: u32, second: u32, third: u32)
    requires { length words.old ≡ 3 }
    ensures { words.new ≡ first ∷ second ∷ third ∷ [] }
{
    words[0] = first;
    words[1] = second;
    words[2] = third;
}

// So many numbers of so many bits each, the first the highest of a run. A fixed number of turns, so that it becomes code without a loop.
pub(crate) fn put_codes<const COUNT: usize, const WIDTH: usize>(words: &mut [u32], run: u64)
    requires { (WIDTH ≤ 32) × (WIDTH * COUNT ≤ 64) × (length words.old ≡ COUNT) }
    ensures { words.new ≡ codes_in COUNT WIDTH run }
{
    for i in 0..COUNT {
        words[i] = ((run >> (WIDTH * (COUNT - 1 - i))) % (1 << WIDTH)) as u32;
    }
}
