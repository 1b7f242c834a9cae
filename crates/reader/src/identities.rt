// Identities: one, and a range type with its entries.
ghost use Rattle.grammar.specs.Grammar.{identity, no_identity, identities, no_identities};
ghost use Rattle.grammar.specs.declared.site.ListKind.TheVariants as of;
ghost use Rattle.reader.specs.Zeros.{no_identity_zeros, no_identities_zeros};

use crate::part::{Part, fill_list};
use crate::stores::put_three;
use bits::Cursor;
use grammar::record::{Identities, Identity};

// One window holds an identity: its SSI, its present bit, and its extension if that is 1.
impl Part for Identity {
    ghost part = { identity };

    ghost none = { no_identity };

    ghost zeros = { no_identity_zeros };

    fn fill(s: &[u8], c: Cursor, words: &mut [u32]) -> Cursor {
        let at = c.at;
        let window = bits::window(s, at);
        let ssi = (window >> 33) as u32;
        if (window >> 32) % 2 == 1 {
            put_three(words, ssi, 1, ((window >> 8) % 16777216) as u32);
            return Cursor { at: at + 49 };
        }
        put_three(words, ssi, 0, 0);
        Cursor { at: at + 25 }
    }
}

// A list of a part; affected users are read alike.
impl Part for Identities {
    ghost part = { identities of.Identities };

    ghost none = { no_identities };

    ghost zeros = { no_identities_zeros };

    fn fill(s: &[u8], c: Cursor, words: &mut [u32]) -> Cursor {
        fill_list::<Identity>(s, c, words)
    }
}
