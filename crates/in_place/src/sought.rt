// A list in place: its range type, and what is looked for among its entries.
ghost use Rattle.std.specs.Prelude.{◌≡◌, Bool, ◌≤◌, take};
ghost use Rattle.bits.specs.Bits.{bits};
ghost use Rattle.bits.specs.Lists.{some};
ghost use Rattle.codec.specs.Codec.{Codec};
ghost use Rattle.codec.specs.Parts.{number};
ghost use Rattle.codec.specs.Places.{places};
ghost use Rattle.reader.specs.Inner.{Read};
ghost use Rattle.in_place.specs.Inner.{Walkable, Says, Blank};

use crate::Passed;

// The front of a list: its range type, where its entries begin, and how many bits the first has if it is an identity.
#[derive(Clone, Copy)]
pub(crate) struct Front {
    pub(crate) code: u32,
    pub(crate) at: usize,
    pub(crate) width: usize,
}

// All of it stands in one window.
pub(crate) fn front_at(s: &[u8], start: usize) -> Front
    requires { Walkable (number 4) s.now start }
    ensures { Read (number 4) (bits s.now) start result.code result.at }
{
    let window = bits::window(s, start);
    Front {
        code: (window >> 53u32) as u32,
        at: start + 4,
        width: 25 + 24 * ((window >> 28u32) % 2) as usize,
    }
}

// What is looked for among the entries of a list.
pub(crate) trait Sought: Copy {
    type Entry;

    // An entry in a PDU, what stands in the places after the last, and whether an entry is this.
    ghost part: { Codec Self.Entry };

    ghost none: { Codec Self.Entry };

    ghost is: { Self → Self.Entry → Bool };

    // Whether the entry at a place is this.
    fn at(self, s: &[u8], at: usize) -> Passed
        requires { Walkable part s.now at }
        ensures { Says part (is self) (bits s.now) at result.has result.end };

    // After the last nothing is read.
    ghost blank: { Blank none };
}

// Whether one of so many entries, however long each is, is what is looked for.
pub(crate) fn among<S: Sought>(s: &[u8], start: usize, count: usize, sought: S) -> Passed
    requires { (count ≤ 8) × Walkable (places S.part S.none 8 count) s.now start }
    ensures { Says (places S.part S.none 8 count) (λ l. some (S.is sought) (take count l)) (bits s.now) start result.has result.end }
{
    let mut has = false;
    let mut at = start;
    for _ in 0..count {
        let entry = sought.at(s, at);
        has |= entry.has;
        at = entry.end;
    }
    Passed { has, end: at }
}

// The same first as if each had so many bits, as in most lists: then no place waits for the entry before it.
pub(crate) fn among_even<S: Sought>(
    s: &[u8],
    start: usize,
    count: usize,
    width: usize,
    sought: S,
) -> Passed
    requires { (count ≤ 8) × Walkable (places S.part S.none 8 count) s.now start }
    ensures { Says (places S.part S.none 8 count) (λ l. some (S.is sought) (take count l)) (bits s.now) start result.has result.end }
{
    let mut has = false;
    let mut at = start;
    for _ in 0..count {
        let entry = sought.at(s, at);
        let end = at.wrapping_add(width);
        if entry.end != end {
            return among(s, start, count, sought);
        }
        has |= entry.has;
        at = end;
    }
    Passed { has, end: at }
}
