// External numbers: one, and a range type with its entries.
ghost use Rattle.std.specs.Prelude.{◌≡◌, length};
ghost use Rattle.grammar.specs.Grammar.{external, no_external, externals, no_externals};
ghost use Rattle.reader.specs.Zeros.{no_number_zeros, no_numbers_zeros};
ghost use Rattle.reader.specs.Inner.{codes_in};

use crate::part::{Part, fill_list};
use crate::stores::{held, put_codes};
use bits::Cursor;
use grammar::record::{Number, Numbers};

// Twelve digits, four at a time: each four become one store of four words.
fn put_twelve(words: &mut [u32], run: u64)
    requires { length words.old ≡ 12 }
    ensures { words.new ≡ codes_in 12 4 run }
{
    let (first, others) = words.split_at_mut(4);
    let (second, third) = others.split_at_mut(4);
    put_codes::<4, 4>(first, run >> 32u32);
    put_codes::<4, 4>(second, (run >> 16u32) % 65536);
    put_codes::<4, 4>(third, run % 65536);
}

// The length, the digits, and zeros in the other places: the length and twelve digits from one window, twelve from another.
impl Part for Number {
    ghost part = { external };

    ghost none = { no_external };

    ghost zeros = { no_number_zeros };

    fn fill(s: &[u8], c: Cursor, words: &mut [u32]) -> Cursor {
        let at = c.at;
        let window = bits::window(s, at);
        let length = (window >> 52) as u32;
        let count = length as usize;
        let first = count.min(12);
        let high = held(window, 5, 48, 4 * first);
        let low = held(bits::window(s, at + 53), 0, 48, 4 * (count - first));
        let (of_digits, digits) = words.split_first_mut().unwrap();
        let (early, late) = digits.split_at_mut(12);
        *of_digits = length;
        put_twelve(early, high);
        put_twelve(late, low);
        Cursor {
            at: at + 5 + 4 * count,
        }
    }
}

impl Part for Numbers {
    ghost part = { externals };

    ghost none = { no_externals };

    ghost zeros = { no_numbers_zeros };

    fn fill(s: &[u8], c: Cursor, words: &mut [u32]) -> Cursor {
        fill_list::<Number>(s, c, words)
    }
}
