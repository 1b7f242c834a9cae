// A record that is not refused, put into the lent buffer part by part, each element straight from its words into its place.
ghost use Rattle.std.specs.Prelude.{◌≡◌, ◌≤◌, length};
ghost use Rattle.grammar.specs.Grammar.{from_record, pdu};
ghost use Rattle.grammar.specs.Rows.{form_of, users_if};
ghost use Rattle.words.specs.RecordWords.{identities_from, record_from};
ghost use Rattle.writer.specs.Inner.{Room, Puts, Small, figured};

use crate::elements::{put_element, put_run};
use crate::lists::{put_list, put_part};
use crate::services::put_services;
use grammar::figures::{Form, figures_run, form_of, part_in};
use grammar::record::Identity;
use grammar::site::{PduType, SS_TYPE, pdu_type};
use words::record::figures_from;

// The affected users, where the PDU has them, as its row says.
fn put_users(out: &mut [u8], at: usize, users: bool, words: &[u32]) -> usize
    requires { (25 ≤ length words.now) × Room (users_if users) (identities_from words.now) out.old at }
    ensures { Puts (users_if users) (identities_from words.now) out.old out.new at result }
{
    if users {
        return put_list::<Identity>(out, at, words);
    }
    at
}

// What follows the affected users in a PDU of a type; figures and services are one run.
fn put_figured(out: &mut [u8], at: usize, kind: Option<PduType>, form: Form, words: &[u32]) -> usize
    requires { (length words.now ≡ 520) × (form ≡ form_of kind) × Small (record_from words.now).lists × Room (figured kind) (from_record (record_from words.now)).1.1 out.old at }
    ensures { Puts (figured kind) (from_record (record_from words.now)).1.1 out.old out.new at result }
{
    let figures = figures_from(words);
    let run = figures_run(kind, figures);
    let width = form.width;
    if !form.services {
        return put_run(out, at, width, run);
    }
    let lead = (run % 32) as u32;
    let after_services = put_services(out, at, lead, width, &words[29..]);
    put_part(out, after_services, part_in(kind, figures), &words[37..])
}

// The whole record, from the first bit on: SS type, PDU type, affected users, and what follows them.
pub(crate) fn put_record(out: &mut [u8], words: &[u32]) -> usize
    requires { (length words.now ≡ 520) × Small (record_from words.now).lists × Room pdu (record_from words.now) out.old 0 }
    ensures { Puts pdu (record_from words.now) out.old out.new 0 result }
{
    let code = words[0];
    let kind = pdu_type(code);
    let form = form_of(kind);
    let after_ss = put_element(out, 0, 6, SS_TYPE);
    let after_kind = put_element(out, after_ss, 5, code);
    let after_users = put_users(out, after_kind, form.users, &words[1..]);
    put_figured(out, after_users, kind, form, words)
}
