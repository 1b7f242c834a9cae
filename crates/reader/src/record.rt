// The whole record: the PDU type, then what its row says; 520 words, zero where the PDU carries nothing.
ghost use Rattle.std.specs.Prelude.{◌+◌};
ghost use Rattle.bits.specs.Bits.{bits};
ghost use Rattle.grammar.specs.Grammar.{pdu};
ghost use Rattle.words.specs.Places.{services_width, lists_width, record_width};
ghost use Rattle.words.specs.RecordWords.{record_words};
ghost use Rattle.reader.specs.Inner.{listed, listed_words, Fillable, Fills};

use crate::lists::fill_part;
use crate::part::fill_if;
use crate::stores::{number_at, put_three};
use bits::Cursor;
use grammar::record::{Identities, Services};
use grammar::{figures, site};
use words::record::{IDENTITIES_WORDS, LISTS_WORDS, SERVICES_WORDS};

// The services, if they are carried, and the lists of a part.
fn fill_listed(s: &[u8], c: Cursor, words: &mut [u32], served: bool, part: u32) -> Cursor
    requires { Fillable (listed served part) s.now c.at words.old (services_width + lists_width) }
    ensures { Fills (listed served part) listed_words (bits s.now) c.at words.new result.at }
{
    let (services, lists) = words.split_at_mut(SERVICES_WORDS);
    let after_services = fill_if::<Services>(s, c, services, served);
    fill_part(s, after_services, lists, part)
}

// The PDU type, the affected users, the figures from one window, services and lists.
pub(crate) fn fill_record(s: &[u8], words: &mut [u32]) -> Cursor
    requires { Fillable pdu s.now 0 words.old record_width }
    ensures { Fills pdu record_words (bits s.now) 0 words.new result.at }
{
    let code = number_at(s, 6, 5);
    let kind = site::pdu_type(code);
    let form = figures::form_of(kind);
    let (pdu_type, rest) = words.split_first_mut().unwrap();
    let (users, rest) = rest.split_at_mut(IDENTITIES_WORDS);
    let (interrogation, rest) = rest.split_at_mut(3);
    let (listed, rest) = rest.split_at_mut(SERVICES_WORDS + LISTS_WORDS);
    let (definition, outcome) = rest.split_at_mut(3);
    *pdu_type = code;
    let after_users = fill_if::<Identities>(s, Cursor { at: 11 }, users, form.users);
    let at = after_users.at;
    let f = figures::figures_in(kind, bits::window(s, at));
    put_three(interrogation, f.asked, f.result, f.status);
    let after_figures = Cursor {
        at: at + form.width,
    };
    let part = figures::part_in(kind, f);
    let end = fill_listed(s, after_figures, listed, form.services, part);
    put_three(definition, f.delivery, f.acknowledgement, f.definition);
    put_three(outcome, f.defined, f.distributed, f.cause);
    end
}
