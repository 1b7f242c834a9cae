// The lists of a part.
ghost use Rattle.bits.specs.Bits.{bits};
ghost use Rattle.grammar.specs.Grammar.{part_of};
ghost use Rattle.words.specs.Places.{lists_width};
ghost use Rattle.words.specs.RecordWords.{lists_words};
ghost use Rattle.reader.specs.Inner.{Fillable, Fills};

use crate::part::{Part, fill_two};
use bits::Cursor;
use grammar::record::{Identities, Numbers};
use words::record::IDENTITIES_WORDS;

// Closed user groups, then the restricted and the exceptions to them: identities in part 1, external numbers in part 2, with zeros for
// the two lists of the other kind. Any other part has no lists.
pub(crate) fn fill_part(s: &[u8], c: Cursor, words: &mut [u32], part: u32) -> Cursor
    requires { Fillable (part_of part) s.now c.at words.old lists_width }
    ensures { Fills (part_of part) lists_words (bits s.now) c.at words.new result.at }
{
    let (groups, others) = words.split_at_mut(IDENTITIES_WORDS);
    let (identities, numbers) = others.split_at_mut(2 * IDENTITIES_WORDS);
    if part == 1 {
        numbers.fill(0);
        let after_groups = Identities::fill(s, c, groups);
        return fill_two::<Identities>(s, after_groups, identities);
    }
    if part == 2 {
        identities.fill(0);
        let after_groups = Identities::fill(s, c, groups);
        return fill_two::<Numbers>(s, after_groups, numbers);
    }
    groups.fill(0);
    identities.fill(0);
    numbers.fill(0);
    c
}
