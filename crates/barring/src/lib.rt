// Whether a call is barred: the decision from an archive (document 01, "The barring rule").
#![tactic(auto)]

ghost use Rattle.std.specs.Prelude.{◌≡◌, ◌+◌, ◌≤◌, length, take, drop, Ok};
ghost use Rattle.bits.specs.Frame.{bytes_for};
ghost use Rattle.reader.specs.Read.{answer_of, read_is};
ghost use Rattle.barring.specs.Decision.{decision_of};
ghost use Rattle.barring.specs.Decide.{part_for, judging_part, decide_is};
ghost use Rattle.barring.specs.Inner.{ruling_of_body};

use archive::{Key, Refusal};
use bits::BitCount;
use rules::Cause;
use rules::request::{Destination, Request, request_refusal};

// The answer to a request: allowed; barred, with its cause; or the part that judges it is not held.
#[derive(Clone, Copy)]
pub enum Decision {
    Allowed,
    Barred(Cause),
    NotHeld,
}

// What a part says, as the answer to a request.
impl From<Option<Cause>> for Decision {
    ghost from_gives = { λ ruling decision. decision ≡ decision_of ruling };

    fn from(ruling: Option<Cause>) -> Decision {
        match ruling {
            None => Decision::Allowed,
            Some(cause) => Decision::Barred(cause),
        }
    }
}

// The part by which a destination is judged: 1 is the identity part, 2 the number part.
#[tactic(auto, unfolding(crate::specs::Decide::part_for))]
fn part_for(destination: Destination) -> u32
    ensures { result ≡ part_for destination }
{
    match destination {
        Destination::Identity(_) => 1,
        Destination::Number(_) => 2,
    }
}

// Where the part stands that judges a request: the place of its body in the archive, and its length.
#[derive(Clone, Copy)]
pub struct JudgingPart {
    pub at: usize,
    pub length: BitCount,
}

// What the body of a part says of the call. The archive holds it, so it is accepted.
fn ruling_of_body(archive: &[u8], part: JudgingPart, request: Request) -> Option<Cause>
    requires within { part.at + bytes_for part.length.0 ≤ length archive.now }
    requires accepted { answer_of (read_is (take (bytes_for part.length.0) (drop part.at archive.now)) part.length.0) ≡ Ok tt }
    ensures { result ≡ ruling_of_body archive.now part.at part.length.0 request }
{
    let end = part.at + part.length.bytes();
    let held = pdu::read(&archive[part.at..end], part.length).unwrap();
    rules::rule(held, archive::home(archive), request)
}

// The part that judges a request, if it is held: 9 before 7, then the part of the request's user.
pub fn judging_part(archive: &[u8], request: Request) -> Result<Option<JudgingPart>, Refusal>
    ensures { result ≡ judging_part archive.now request }
{
    let number = request_refusal(request);
    if number != 0 {
        return Err(Refusal {
            number,
            entry: None,
            place: None,
        });
    }
    let user = request.user;
    let key = Key {
        network: user.network,
        ssi: user.ssi,
        part: part_for(request.destination),
    };
    let held = archive::fetch(archive, key)?;
    Ok(held.map(|body| JudgingPart {
        at: body.off,
        length: body.bits,
    }))
}

// Whether the archive bars the call.
pub fn decide(archive: &[u8], request: Request) -> Result<Decision, Refusal>
    ensures { result ≡ decide_is archive.now request }
{
    match judging_part(archive, request)? {
        Some(part) => Ok(Decision::from(ruling_of_body(archive, part, request))),
        None => Ok(Decision::NotHeld),
    }
}
