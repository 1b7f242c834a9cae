// The parts of a PDU: one that is there or not, two in turn, entries in turn, a range type and its entries.
ghost use Rattle.std.specs.Prelude.{ℕ, ◌+◌, ◌*◌, ◌≤◌, List};
ghost use Rattle.bits.specs.Bits.{bits, pick};
ghost use Rattle.codec.specs.Codec.{Codec};
ghost use Rattle.codec.specs.Places.{places};
ghost use Rattle.words.specs.RecordWords.{in_turn};
ghost use Rattle.reader.specs.Inner.{Fillable, Fills, Zeros, twice, twice_words, ranged, ranged_words};

use crate::stores::number_at;
use bits::Cursor;
use grammar::site::entries_of;
use words::entries::Spelt;

// What is read from its bits into a fixed number of words.
pub(crate) trait Part: Spelt {
    // In a PDU, and where the PDU carries none.
    ghost part: { Codec Self };

    ghost none: { Codec Self };

    fn fill(s: &[u8], c: Cursor, words: &mut [u32]) -> Cursor
        requires { Fillable part s.now c.at words.old Self.WIDTH }
        ensures { Fills part Self.spelt (bits s.now) c.at words.new result.at };

    // Where there is none, its words are zeros.
    ghost zeros: { Zeros none Self.spelt Self.WIDTH };
}

// The part, or zeros where the PDU carries none.
pub(crate) fn fill_if<P: Part>(s: &[u8], c: Cursor, words: &mut [u32], carried: bool) -> Cursor
    requires { Fillable (pick carried P.part P.none) s.now c.at words.old P.WIDTH }
    ensures { Fills (pick carried P.part P.none) P.spelt (bits s.now) c.at words.new result.at }
{
    if carried {
        return P::fill(s, c, words);
    }
    words.fill(0);
    c
}

pub(crate) fn fill_two<P: Part>(s: &[u8], c: Cursor, words: &mut [u32]) -> Cursor
    requires { Fillable (twice P.part) s.now c.at words.old (P.WIDTH + P.WIDTH) }
    ensures { Fills (twice P.part) (twice_words P.spelt) (bits s.now) c.at words.new result.at }
{
    let (first, second) = words.split_at_mut(P::WIDTH);
    let between = P::fill(s, c, first);
    P::fill(s, between, second)
}

// The entries that the PDU carries, and zeros in the other places. By index: of the slices of `chunks_exact_mut` a proof knows the lengths alone.
pub(crate) fn fill_entries<E: Part>(s: &[u8], c: Cursor, words: &mut [u32], count: usize) -> Cursor
    requires { (count ≤ 8) × Fillable (places E.part E.none 8 count) s.now c.at words.old (E.WIDTH * 8) }
    ensures { Fills (places E.part E.none 8 count) (in_turn E.spelt) (bits s.now) c.at words.new result.at }
{
    let width = E::WIDTH;
    let mut at = c;
    for i in 0..count {
        let from = width * i;
        at = E::fill(s, at, &mut words[from..from + width]);
    }
    words[width * count..].fill(0);
    at
}

// The range type, and as many entries as it says.
pub(crate) fn fill_list<E: Part>(s: &[u8], c: Cursor, words: &mut [u32]) -> Cursor
    requires { Fillable (ranged E.part E.none) s.now c.at words.old (1 + E.WIDTH * 8) }
    ensures { Fills (ranged E.part E.none) (ranged_words E.spelt) (bits s.now) c.at words.new result.at }
{
    let at = c.at;
    let code = number_at(s, at, 4);
    let (range_type, entries) = words.split_first_mut().unwrap();
    *range_type = code;
    fill_entries::<E>(s, Cursor { at: at + 4 }, entries, entries_of(code))
}
