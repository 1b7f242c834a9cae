// An external number looked for in a list of numbers: the same length, then the same digits.
ghost use Rattle.std.specs.Prelude.{◌+◌, ◌*◌, ◌≤◌, take};
ghost use Rattle.bits.specs.Bits.{bits};
ghost use Rattle.codec.specs.Parts.{absent, element};
ghost use Rattle.codec.specs.Places.{places};
ghost use Rattle.grammar.specs.SiteSheet.{digit_refusal};
ghost use Rattle.grammar.specs.Grammar.{external, no_external, externals};
ghost use Rattle.rules.specs.Matching.{same, is_number, number_among};
ghost use Rattle.in_place.specs.Inner.{Walkable, Says, Sees};
ghost use Rattle.in_place.specs.Blanks.{no_external_blank};

use crate::sought::{Sought, among, front_at};
use crate::{Passed, Seen};
use grammar::record::Number;

// Whether so many digits from a place on are these.
fn are_digits(s: &[u8], at: usize, count: usize, digits: [u8; 24]) -> bool
    requires { (count ≤ 24) × Walkable (places (element 4 digit_refusal) absent 24 count) s.now at }
    ensures { Says (places (element 4 digit_refusal) absent 24 count) (λ l. same (take count l) (take count digits)) (bits s.now) at result (at + 4 * count) }
{
    for i in 0..count {
        if bits::window(s, at + 4 * i) >> 53u32 != digits[i] as u64 {
            return false;
        }
    }
    true
}

impl Sought for Number {
    type Entry = Number;

    ghost part = { external };

    ghost none = { no_external };

    ghost is = { λ n. is_number n.length.0 n.digits };

    ghost blank = { no_external_blank };

    fn at(self, s: &[u8], at: usize) -> Passed {
        let length = self.length;
        let count = (bits::window(s, at) >> 52u32) as usize;
        let start = at + 5;
        let end = start + 4 * count;
        if count != length.0 as usize {
            return Passed { has: false, end };
        }
        Passed {
            has: are_digits(s, start, count, self.digits),
            end,
        }
    }
}

// Whether a list has this number. Its range type is how many entries it has.
pub(crate) fn numbers_at(s: &[u8], start: usize, number: Number) -> Seen
    requires { Walkable externals s.now start }
    ensures { Sees externals (λ l. number_among l number.length.0 number.digits) (λ l. l.code) (bits s.now) start result }
{
    let front = front_at(s, start);
    let code = front.code;
    among(s, front.at, code as usize, number).of_list(code)
}
