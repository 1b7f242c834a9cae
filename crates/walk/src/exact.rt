// The exact walk, element by element, left to right: each function goes on from a cursor and gives the one behind its part,
// and the first refusal ends it, with its number and the bit place of the element at fault.
ghost use Rattle.std.specs.Prelude.{◌≡◌, ◌≤◌, ℕ, Ok, Err, Some};
ghost use Rattle.bits.specs.Bits.{pick};
ghost use Rattle.bits.specs.declared.Cursor.{Cursor};
ghost use Rattle.codec.specs.Codec.{Codec};
ghost use Rattle.codec.specs.Parts.{number, element};
ghost use Rattle.codec.specs.Reading.{read_at, said, reached};
ghost use Rattle.codec.specs.declared.Stop.{Stop};
ghost use Rattle.grammar.specs.SiteSheet.{between, reserved, entries_of};
ghost use Rattle.grammar.specs.Grammar.{identity, identities, services, part_of, definition, user_definition};
ghost use Rattle.grammar.specs.declared.site.ListKind.TheVariants as of;
ghost use Rattle.grammar.specs.declared.site.PduType.TheVariants as type;
ghost use Rattle.walk.specs.Inner.{Reached, bits_of, pass, steps, range, listed, lists, counted, defined_by, defined_from, steered_from, result_in};

use crate::entry::{Entry, Listed};
use bits::{BitCount, Cursor};
use codec::Stop;
use grammar::record::{Identity, Number};
use grammar::site::{ListKind, PduType};
use grammar::{figures, site};

// A PDU: the bytes that hold it, and its length.
#[derive(Clone, Copy)]
pub(crate) struct Pdu<'a> {
    pub(crate) bytes: &'a [u8],
    pub(crate) length: BitCount,
}

// What figures steer: the interrogation result, and the part whose lists follow; 0 for none.
#[derive(Clone, Copy)]
pub struct Steering {
    pub result: u32,
    pub part: u32,
}

const NOTHING: Steering = Steering { result: 0, part: 0 };

// So many parts, one behind the other.
fn repeated<F: Fn(Cursor) -> Result<Cursor, Stop>>(
    start: Cursor,
    count: u32,
    part: F,
) -> Result<Cursor, Stop>
    requires { F.IsAlwaysCallable part }
    ensures { (step : Reached → Reached) → ((at : Cursor) (r : Reached) → F.post part at r → r ≡ step (Ok at))
        → ((e : Stop) → Err e ≡ step (Err e)) → result ≡ steps step count (Ok start) }
{
    let mut at = start;
    for _ in 0..count {
        at = part(at)?;
    }
    Ok(at)
}

// A part, where the PDU has it.
fn if_carried<F: Fn(Cursor) -> Result<Cursor, Stop>>(
    carried: bool,
    at: Cursor,
    part: F,
) -> Result<Cursor, Stop>
    requires { F.IsAlwaysCallable part }
    ensures { (there : Reached) → ((r : Reached) → F.post part at r → r ≡ there) → result ≡ pick carried there (Ok at) }
{
    if carried { part(at) } else { Ok(at) }
}

impl<'a> Pdu<'a> {
    // The number of `width` bits.
    fn number(self, at: Cursor, width: usize) -> Result<(u32, Cursor), Stop>
        requires { (1 ≤ width) × (width ≤ 32) }
        ensures { result ≡ said (read_at (number width) (bits_of self.entry) at.at) }
    {
        codec::number(self.bytes, self.length, Ok(at), width)
    }

    // The same under a test: refused where it begins, unless that is 0.
    fn element<F: Fn(u32) -> u32>(
        self,
        at: Cursor,
        width: usize,
        refusal: F,
    ) -> Result<(u32, Cursor), Stop>
        requires callable { F.IsAlwaysCallable refusal }
        requires wide { (1 ≤ width) × (width ≤ 32) }
        ensures { (refuse : ℕ → ℕ) → ((v k : ℕ) → F.post refusal v k → k ≡ refuse v)
            → result ≡ said (read_at (element width refuse) (bits_of self.entry) at.at) }
    {
        let read = self.number(at, width)?;
        codec::tested(Ok(at), Ok(read), refusal(read.0))
    }

    // The same without its value.
    pub(crate) fn pass_element<F: Fn(u32) -> u32>(
        self,
        at: Cursor,
        width: usize,
        refusal: F,
    ) -> Result<Cursor, Stop>
        requires callable { F.IsAlwaysCallable refusal }
        requires wide { (1 ≤ width) × (width ≤ 32) }
        ensures { (refuse : ℕ → ℕ) → ((v k : ℕ) → F.post refusal v k → k ≡ refuse v)
            → result ≡ reached (read_at (element width refuse) (bits_of self.entry) at.at) }
    {
        let (_, next) = self.element(at, width, refusal)?;
        Ok(next)
    }

    pub(crate) fn identity_of(self, at: Cursor) -> Result<(Identity, Cursor), Stop>
        ensures { result ≡ said (read_at identity (bits_of self.entry) at.at) }
    {
        let (ssi, at_present) = self.number(at, 24)?;
        let (present, behind) = self.number(at_present, 1)?;
        if present == 1 {
            let (extension, end) = self.number(behind, 24)?;
            return Ok((
                Identity {
                    ssi,
                    present: 1,
                    extension,
                },
                end,
            ));
        }
        Ok((
            Identity {
                ssi,
                present,
                extension: 0,
            },
            behind,
        ))
    }

    // The two ends of a range; 4, at the second, if they disagree or are reversed.
    pub(crate) fn pass_range(self, at: Cursor) -> Result<Cursor, Stop>
        ensures { result ≡ reached (read_at range (bits_of self.entry) at.at) }
    {
        let (first, second) = self.identity_of(at)?;
        let (last, end) = self.identity_of(second)?;
        let ends = site::ends_refusal(first, last);
        let (_, behind) = codec::tested(Ok(second), Ok((last.ssi, end)), ends)?;
        Ok(behind)
    }

    // As many entries as a range type says.
    pub(crate) fn pass_each<E: Entry>(self, at: Cursor, code: u32) -> Result<Cursor, Stop>
        ensures { result ≡ steps (pass E.part (bits_of self.entry)) (entries_of code) (Ok at) }
    {
        repeated(at, site::row_of(code).entries, |at| E::pass(self, at))
    }

    // A range type and its entries, by the kind of list.
    fn pass_list<E: Listed>(self, at: Cursor, list: ListKind) -> Result<Cursor, Stop>
        ensures { result ≡ reached (read_at (listed list E.entries) (bits_of self.entry) at.at) }
    {
        let (code, entries) = self.element(at, 4, |code| site::range_refusal(list, code))?;
        E::pass_entries(self, entries, code)
    }

    // The three lists of a part, of which the first has identities.
    fn pass_lists<E: Listed>(self, at: Cursor) -> Result<Cursor, Stop>
        ensures { result ≡ lists E.LIST E.entries (bits_of self.entry) (Ok at) }
    {
        let second = self.pass_list::<Identity>(at, ListKind::Identities)?;
        let third = self.pass_list::<E>(second, E::LIST)?;
        self.pass_list::<E>(third, E::LIST)
    }

    // The lists that follow.
    fn pass_part(self, at: Cursor, part: u32) -> Result<Cursor, Stop>
        ensures { result ≡ reached (read_at (part_of part) (bits_of self.entry) at.at) }
    {
        match part {
            1 => self.pass_lists::<Identity>(at),
            2 => self.pass_lists::<Number>(at),
            _ => Ok(at),
        }
    }

    // A number from 1 to most, and as many parts.
    pub(crate) fn pass_counted<F: Fn(Cursor) -> Result<Cursor, Stop>>(
        self,
        at: Cursor,
        width: usize,
        most: u32,
        part: F,
    ) -> Result<Cursor, Stop>
        requires callable { F.IsAlwaysCallable part }
        requires wide { (1 ≤ width) × (width ≤ 32) }
        ensures { (c : Codec ℕ) → ((at : Cursor) (r : Reached) → F.post part at r → r ≡ reached (read_at c (bits_of self.entry) at.at))
            → result ≡ reached (read_at (counted width most c) (bits_of self.entry) at.at) }
    {
        let (count, parts) = self.element(
            at,
            width,
            |count| site::between_refusal(1, most, count),
        )?;
        repeated(parts, count, part)
    }

    // The affected users.
    fn pass_users(self, at: Cursor) -> Result<Cursor, Stop>
        ensures { result ≡ reached (read_at (identities of.Users) (bits_of self.entry) at.at) }
    {
        self.pass_list::<Identity>(at, ListKind::Users)
    }

    // The number of services and the services.
    fn pass_services(self, at: Cursor) -> Result<Cursor, Stop>
        ensures { result ≡ reached (read_at services (bits_of self.entry) at.at) }
    {
        self.pass_counted(
            at,
            3,
            7,
            |at| self.pass_element(at, 3, site::service_refusal),
        )
    }

    // A definition type, by which the lists of a part follow or not.
    fn pass_defined(self, at: Cursor, part: u32) -> Result<(Steering, Cursor), Stop>
        ensures { result ≡ said (defined_by part (bits_of self.entry) at.at) }
    {
        let (definition, end) = self.element(at, 2, |definition| {
            site::between_refusal(0, 2, definition)
        })?;
        let steering = Steering {
            result: 0,
            part: site::defined_part(part, definition),
        };
        Ok((steering, end))
    }

    // Delivery, acknowledgement and definition type.
    fn pass_definition(self, at: Cursor, part: u32) -> Result<(Steering, Cursor), Stop>
        ensures { result ≡ said (defined_from definition part (bits_of self.entry) at.at) }
    {
        let (delivery, asked) = self.number(at, 1)?;
        let (_, kind) = self.element(asked, 1, |acknowledgement| {
            site::between_refusal(0, delivery, acknowledgement)
        })?;
        self.pass_defined(kind, part)
    }

    // The same without delivery.
    fn pass_user_definition(self, at: Cursor, part: u32) -> Result<(Steering, Cursor), Stop>
        ensures { result ≡ said (defined_from user_definition part (bits_of self.entry) at.at) }
    {
        let (_, kind) = self.number(at, 1)?;
        self.pass_defined(kind, part)
    }

    // Interrogation result and delivery status.
    fn pass_answer(self, at: Cursor) -> Result<(Steering, Cursor), Stop>
        ensures { result ≡ said (steered_from (Some type.InterrogateAck) (bits_of self.entry) at.at) }
    {
        let (answer, status) = self.element(at, 3, |answer| site::reserved_refusal(5, 5, answer))?;
        let (_, end) = self.number(status, 2)?;
        let steering = Steering {
            result: answer,
            part: answer,
        };
        Ok((steering, end))
    }

    // A definition or distribution result: three bits, from low to 5 reserved.
    fn pass_outcome(self, at: Cursor, low: u32) -> Result<Cursor, Stop>
        ensures { result ≡ reached (read_at (element 3 (reserved low 5)) (bits_of self.entry) at.at) }
    {
        self.pass_element(at, 3, |outcome| site::reserved_refusal(low, 5, outcome))
    }

    // An interrogation type or a rejection cause: two bits, from low to high.
    fn pass_choice(self, at: Cursor, low: u32, high: u32) -> Result<Cursor, Stop>
        ensures { result ≡ reached (read_at (element 2 (between low high)) (bits_of self.entry) at.at) }
    {
        self.pass_element(at, 2, |choice| site::between_refusal(low, high, choice))
    }

    // The figures of a PDU of a type.
    fn pass_figures(self, at: Cursor, kind: Option<PduType>) -> Result<(Steering, Cursor), Stop>
        ensures { result ≡ said (steered_from kind (bits_of self.entry) at.at) }
    {
        let Some(kind) = kind else {
            return Ok((NOTHING, at));
        };
        match kind {
            PduType::Define => self.pass_definition(at, 1),
            PduType::DefineAck => Ok((NOTHING, self.pass_outcome(at, 5)?)),
            PduType::DefineExternal => self.pass_definition(at, 2),
            PduType::DefineUser => self.pass_user_definition(at, 1),
            PduType::DefineUserAck => Ok((NOTHING, self.pass_outcome(at, 2)?)),
            PduType::DefineExternalUser => self.pass_user_definition(at, 1),
            PduType::Interrogate => Ok((NOTHING, self.pass_choice(at, 1, 3)?)),
            PduType::InterrogateAck => self.pass_answer(at),
            PduType::CallBarred => Ok((NOTHING, self.pass_choice(at, 0, 2)?)),
        }
    }

    // The whole of the PDU, and its interrogation result, 0 where it has none.
    pub(crate) fn pass_pdu(self) -> Result<(u32, Cursor), Stop>
        ensures { result ≡ said (result_in (bits_of self.entry)) }
    {
        let (_, at_kind) = self.element(Cursor { at: 0 }, 6, site::ss_refusal)?;
        let (code, at_users) = self.element(at_kind, 5, site::kind_refusal)?;
        let kind = site::pdu_type(code);
        let form = figures::form_of(kind);
        let at_figures = if_carried(form.users, at_users, |at| self.pass_users(at))?;
        let (steering, at_services) = self.pass_figures(at_figures, kind)?;
        let at_lists = if_carried(form.services, at_services, |at| self.pass_services(at))?;
        let end = self.pass_part(at_lists, steering.part)?;
        Ok((steering.result, end))
    }
}
