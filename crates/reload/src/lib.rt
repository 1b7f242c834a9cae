// A held part put back into a switch: the DEFINE or DEFINE EXTERNAL that is written for it (document 02, requests 2026-01 and 2026-06).
#![tactic(auto)]

ghost use Rattle.std.specs.Prelude.{◌≡◌, ◌+◌, ◌≤◌, length, take, drop, Ok};
ghost use Rattle.bits.specs.Frame.{bytes_for};
ghost use Rattle.reader.specs.Read.{answer_of, found_in, read_is};
ghost use Rattle.writer.specs.Write.{write_is, out_is};
ghost use Rattle.reload.specs.Define.{is_definition, kind_of, part_for, define_of, no_identities, no_numbers, stands_in};
ghost use Rattle.reload.specs.Reload.{reload_is, reload_out};
ghost use Rattle.reload.specs.Inner.{reloaded_from, reloaded_out};

use archive::{Body, Key, Refusal};
use bits::BitCount;
use grammar::record::{Figures, Lists, Record};
use grammar::{site, zero};

// The PDU in which a part is put back: a DEFINE has lists of identities, a DEFINE EXTERNAL lists of numbers.
#[derive(Clone, Copy)]
pub enum Target {
    Define,
    DefineExternal,
}

// What is asked for: the definition type, delivery to the affected user, acknowledgement from it.
#[derive(Clone, Copy)]
pub struct Definition {
    pub definition: u32,
    pub delivery: u32,
    pub acknowledgement: u32,
}

// Whether a definition may be asked for.
#[tactic(auto, unfolding(crate::specs::Define::is_definition))]
fn is_definition(wanted: Definition) -> bool
    ensures { result ≡ is_definition wanted }
{
    wanted.definition <= 2 && wanted.delivery <= 1 && wanted.acknowledgement <= wanted.delivery
}

fn no_identities(lists: Lists) -> bool
    ensures { result ≡ no_identities lists }
{
    lists.restricted.code == 0 && lists.exceptions.code == 0
}

fn no_numbers(lists: Lists) -> bool
    ensures { result ≡ no_numbers lists }
{
    lists.numbers.code == 0 && lists.excepted.code == 0
}

// Whether each list that is not empty is one of a part.
#[tactic(auto, unfolding(crate::specs::Define::stands_in))]
fn stand_in(part: u32, lists: Lists) -> bool
    ensures { result ≡ stands_in part lists }
{
    match part {
        1 => no_numbers(lists),
        2 => no_identities(lists),
        _ => lists.groups.code == 0 && no_identities(lists) && no_numbers(lists),
    }
}

impl Target {
    // The part whose lists the PDU has.
    fn part(self) -> u32
        ensures { result ≡ part_for self }
    {
        match self {
            Target::Define => 1,
            Target::DefineExternal => 2,
        }
    }

    fn kind(self) -> u32
        ensures { result ≡ kind_of self }
    {
        match self {
            Target::Define => 5,
            Target::DefineExternal => 7,
        }
    }
}

// The PDU that puts a part back: its affected user, services and lists as they are.
#[tactic(auto, unfolding(crate::specs::Define::define_of))]
fn define_of(target: Target, wanted: Definition, part: Record) -> Record
    ensures { result ≡ define_of target wanted part }
{
    let figures = Figures {
        delivery: wanted.delivery,
        acknowledgement: wanted.acknowledgement,
        definition: wanted.definition,
        ..zero::zero_figures()
    };
    Record {
        kind: target.kind(),
        figures,
        ..part
    }
}

// The record of an accepted PDU. A call by itself, as the next: so the words that each lays on the stack are never there together.
#[inline(never)]
fn part_of(s: &[u8], n: BitCount) -> Record
    requires { answer_of (read_is s.now n.0) ≡ Ok tt }
    ensures { result ≡ found_in (read_is s.now n.0) }
{
    pdu::read(s, n).unwrap()
}

// Writes the PDU that puts a part back.
#[inline(never)]
fn write_define(
    target: Target,
    wanted: Definition,
    part: Record,
    out: &mut [u8],
) -> Result<BitCount, u32>
    ensures { (result ≡ write_is (define_of target wanted part) out.old) × (out.new ≡ out_is (define_of target wanted part) out.old) }
{
    pdu::write(define_of(target, wanted, part), out)
}

// Writes the PDU that puts a body of the archive back: it is accepted, since the archive holds it.
fn reload_body(
    archive: &[u8],
    body: Body,
    target: Target,
    wanted: Definition,
    out: &mut [u8],
) -> Result<BitCount, Refusal>
    requires within { body.off + bytes_for body.bits.0 ≤ length archive.now }
    requires accepted { answer_of (read_is (take (bytes_for body.bits.0) (drop body.off archive.now)) body.bits.0) ≡ Ok tt }
    ensures value { result ≡ reloaded_from target archive.now body.off body.bits.0 wanted out.old }
    ensures out_after { out.new ≡ reloaded_out target archive.now body.off body.bits.0 wanted out.old }
{
    let end = body.off + body.bits.bytes();
    let part = part_of(&archive[body.off..end], body.bits);
    let carried = site::defined_part(target.part(), wanted.definition);
    if !stand_in(carried, part.lists) {
        return Err(Refusal::plain(12));
    }
    write_define(target, wanted, part, out).map_err(Refusal::plain)
}

// Writes the PDU that puts the part held for a user back; its length in bits. Refusals in order: 9, 7, 11, 12, 8.
pub fn reload(
    target: Target,
    archive: &[u8],
    key: Key,
    wanted: Definition,
    out: &mut [u8],
) -> Result<BitCount, Refusal>
    ensures value { result ≡ reload_is target archive.now key wanted out.old }
    ensures out_after { out.new ≡ reload_out target archive.now key wanted out.old }
{
    if !archive::in_range(key) {
        return Err(Refusal::plain(9));
    }
    if !is_definition(wanted) {
        return Err(Refusal::plain(9));
    }
    let Some(body) = archive::fetch(archive, key)? else {
        return Err(Refusal::plain(11));
    };
    reload_body(archive, body, target, wanted, out)
}
