// What the type of a PDU says of it: whether it has affected users and services, whose lists it carries, and its figures, which are at
// most five bits: where each stands, whether they are legal, whether all others are zero.
ghost use Rattle.std.specs.Prelude.{◌≡◌, ◌&&◌, ◌≤◌, leb};
ghost use Rattle.bits.specs.Bits.{pick};
ghost use Rattle.codec.specs.Codec.{first};
ghost use Rattle.codec.specs.Parts.{number_fault};
ghost use Rattle.grammar.specs.SiteSheet.{reserved};
ghost use Rattle.grammar.specs.Grammar.{no_figures};
ghost use Rattle.grammar.specs.Figures.{of_interrogation, of_definition, of_outcome};
ghost use Rattle.grammar.specs.Rows.{form_with, form_of, part_in, figures_of, definition_in, user_definition_in, figures_in};
ghost use Rattle.grammar.specs.Rows.{definition_run, run_of};

use crate::record::Figures;
use crate::site::{PduType, between_refusal, defined_part, reserved_refusal};
use crate::zero::zero_figures;

// What a PDU of a type has: affected users, services, and so many bits of figures.
#[derive(Clone, Copy)]
pub struct Form {
    pub users: bool,
    pub services: bool,
    pub width: usize,
}

// Affected users stand in every PDU but those to and from the affected user itself, and to a caller; services in definitions and in the answer
// to an interrogation.
#[tactic(auto, unfolding(crate::specs::Rows::form_of))]
pub fn form_of(kind: Option<PduType>) -> Form
    ensures { result ≡ form_of kind }
{
    match kind {
        Some(PduType::Define) => form_with(true, true, 4),
        Some(PduType::DefineAck) => form_with(true, false, 3),
        Some(PduType::DefineExternal) => form_with(true, true, 4),
        Some(PduType::DefineUser) => form_with(false, true, 3),
        Some(PduType::DefineUserAck) => form_with(false, false, 3),
        Some(PduType::DefineExternalUser) => form_with(false, true, 3),
        Some(PduType::Interrogate) => form_with(true, false, 2),
        Some(PduType::InterrogateAck) => form_with(true, true, 5),
        Some(PduType::CallBarred) => form_with(false, false, 2),
        None => form_with(false, false, 0),
    }
}

fn form_with(users: bool, services: bool, width: usize) -> Form
    ensures { result ≡ form_with users services width }
{
    Form {
        users,
        services,
        width,
    }
}

// The part whose lists a PDU carries, 0 for none.
#[tactic(auto, unfolding(crate::specs::Rows::part_in))]
pub fn part_in(kind: Option<PduType>, f: Figures) -> u32
    ensures { result ≡ part_in kind f }
{
    match kind {
        Some(PduType::Define) => defined_part(1, f.definition),
        Some(PduType::DefineAck) => 0,
        Some(PduType::DefineExternal) => defined_part(2, f.definition),
        Some(PduType::DefineUser) => defined_part(1, f.definition),
        Some(PduType::DefineUserAck) => 0,
        Some(PduType::DefineExternalUser) => defined_part(1, f.definition),
        Some(PduType::Interrogate) => 0,
        Some(PduType::InterrogateAck) => f.result,
        Some(PduType::CallBarred) => 0,
        None => 0,
    }
}

// The figures in the window of 57 bits that begins with them.
#[tactic(auto, unfolding(crate::specs::Rows::figures_in))]
pub fn figures_in(kind: Option<PduType>, window: u64) -> Figures
    ensures { result ≡ figures_in kind window }
{
    match kind {
        Some(PduType::Define) => definition_in(window),
        Some(PduType::DefineAck) => of_outcome((window >> 54u32) as u32, 0, 0),
        Some(PduType::DefineExternal) => definition_in(window),
        Some(PduType::DefineUser) => user_definition_in(window),
        Some(PduType::DefineUserAck) => of_outcome(0, (window >> 54u32) as u32, 0),
        Some(PduType::DefineExternalUser) => user_definition_in(window),
        Some(PduType::Interrogate) => of_interrogation((window >> 55u32) as u32, 0, 0),
        Some(PduType::InterrogateAck) => of_interrogation(
            0,
            (window >> 54u32) as u32,
            ((window >> 52u32) % 4) as u32,
        ),
        Some(PduType::CallBarred) => of_outcome(0, 0, (window >> 55u32) as u32),
        None => zero_figures(),
    }
}

// The refusal number of the figures that a PDU carries, 0 for none.
#[tactic(auto, using(crate::proofs::Rows::faults), unfolding(crate::specs::Grammar::figures, crate::specs::Grammar::none, crate::specs::Grammar::codecs))]
pub fn figures_refusal(kind: Option<PduType>, f: Figures) -> u32
    ensures { result ≡ (figures_of kind).fault f }
{
    match kind {
        Some(PduType::Define) => definition_refusal(f),
        Some(PduType::DefineAck) => three_bits_refusal(5, f.defined),
        Some(PduType::DefineExternal) => definition_refusal(f),
        Some(PduType::DefineUser) => acknowledged_refusal(1, f),
        Some(PduType::DefineUserAck) => three_bits_refusal(2, f.distributed),
        Some(PduType::DefineExternalUser) => acknowledged_refusal(1, f),
        Some(PduType::Interrogate) => between_refusal(1, 3, f.asked),
        Some(PduType::InterrogateAck) => answer_refusal(f),
        Some(PduType::CallBarred) => between_refusal(0, 2, f.cause),
        None => 0,
    }
}

// Whether the figures that a PDU does not carry are zero: with those that it carries left out, all are.
#[tactic(auto, unfolding(crate::specs::Grammar::figures, crate::specs::Grammar::none, crate::specs::Grammar::codecs))]
pub fn figures_clean(kind: Option<PduType>, f: Figures) -> bool
    ensures { result ≡ (figures_of kind).clean f }
{
    match kind {
        Some(PduType::DefineAck) => are_zero(Figures { defined: 0, ..f }),
        Some(PduType::Define | PduType::DefineExternal) => are_zero(Figures {
            delivery: 0,
            acknowledgement: 0,
            definition: 0,
            ..f
        }),
        Some(PduType::DefineUserAck) => are_zero(Figures {
            distributed: 0,
            ..f
        }),
        Some(PduType::DefineUser | PduType::DefineExternalUser) => are_zero(Figures {
            acknowledgement: 0,
            definition: 0,
            ..f
        }),
        Some(PduType::Interrogate) => are_zero(Figures { asked: 0, ..f }),
        Some(PduType::InterrogateAck) => are_zero(Figures {
            result: 0,
            status: 0,
            ..f
        }),
        Some(PduType::CallBarred) => are_zero(Figures { cause: 0, ..f }),
        None => are_zero(f),
    }
}

// The bits of the figures as one number; a figure that is wider than its element is cut, the first is not.
#[tactic(auto, unfolding(crate::specs::Rows::run_of))]
pub fn figures_run(kind: Option<PduType>, f: Figures) -> u64
    ensures { result ≡ run_of kind f }
{
    match kind {
        Some(PduType::Define) => definition_run(f.delivery, f),
        Some(PduType::DefineAck) => f.defined as u64,
        Some(PduType::DefineExternal) => definition_run(f.delivery, f),
        Some(PduType::DefineUser) => definition_run(0, f),
        Some(PduType::DefineUserAck) => f.distributed as u64,
        Some(PduType::DefineExternalUser) => definition_run(0, f),
        Some(PduType::Interrogate) => f.asked as u64,
        Some(PduType::InterrogateAck) => (f.result as u64) * 4 + (f.status as u64) % 4,
        Some(PduType::CallBarred) => f.cause as u64,
        None => 0,
    }
}

// ---- figures of each kind

fn of_interrogation(asked: u32, res: u32, status: u32) -> Figures
    ensures { result ≡ of_interrogation asked res status }
{
    Figures {
        asked,
        result: res,
        status,
        ..zero_figures()
    }
}

fn of_definition(delivery: u32, acknowledgement: u32, definition: u32) -> Figures
    ensures { result ≡ of_definition delivery acknowledgement definition }
{
    Figures {
        delivery,
        acknowledgement,
        definition,
        ..zero_figures()
    }
}

fn of_outcome(defined: u32, distributed: u32, cause: u32) -> Figures
    ensures { result ≡ of_outcome defined distributed cause }
{
    Figures {
        defined,
        distributed,
        cause,
        ..zero_figures()
    }
}

fn definition_in(window: u64) -> Figures
    ensures { result ≡ definition_in window }
{
    let delivery = (window >> 56u32) as u32;
    let acknowledgement = ((window >> 55u32) % 2) as u32;
    let definition = ((window >> 53u32) % 4) as u32;
    of_definition(delivery, acknowledgement, definition)
}

fn user_definition_in(window: u64) -> Figures
    ensures { result ≡ user_definition_in window }
{
    let acknowledgement = (window >> 56u32) as u32;
    let definition = ((window >> 54u32) % 4) as u32;
    of_definition(0, acknowledgement, definition)
}

fn definition_run(delivery: u32, f: Figures) -> u64
    ensures { result ≡ definition_run delivery f }
{
    let acknowledged = (delivery as u64) * 2 + (f.acknowledgement as u64) % 2;
    acknowledged * 4 + (f.definition as u64) % 4
}

// ---- refusals: of a value of three bits, of which those from low to 5 are reserved; of a definition; of the answer to an interrogation

fn three_bits_refusal(low: u32, v: u32) -> u32
    ensures { result ≡ first (number_fault 3 v) (reserved low 5 v) }
{
    if 7 < v {
        return 3;
    }
    reserved_refusal(low, 5, v)
}

// An acknowledgement of at most 0 or 1, and a definition type.
fn acknowledged_refusal(most: u32, f: Figures) -> u32
    requires { most ≤ 1 }
    ensures { result ≡ pick (leb f.acknowledgement most && leb f.definition 2) 0 3 }
{
    if most < f.acknowledgement {
        return 3;
    }
    if 2 < f.definition {
        return 3;
    }
    0
}

fn definition_refusal(f: Figures) -> u32
    ensures { result ≡ pick (leb f.delivery 1 && (leb f.acknowledgement f.delivery && leb f.definition 2)) 0 3 }
{
    if 1 < f.delivery {
        return 3;
    }
    acknowledged_refusal(f.delivery, f)
}

#[tactic(auto, using(crate::proofs::Rows::faults))]
fn answer_refusal(f: Figures) -> u32
    ensures { result ≡ first (first (number_fault 3 f.result) (reserved 5 5 f.result)) (number_fault 2 f.status) }
{
    let own = three_bits_refusal(5, f.result);
    if own != 0 {
        return own;
    }
    between_refusal(0, 3, f.status)
}

// ---- zeros

#[tactic(auto, using(crate::proofs::Codes::zero_test), unfolding(crate::specs::Grammar::figures, crate::specs::Grammar::none, crate::specs::Grammar::codecs))]
fn are_zero(f: Figures) -> bool
    ensures { result ≡ no_figures.clean f }
{
    f == zero_figures()
}
