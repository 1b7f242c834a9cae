// A request: who calls, by which service, to whom, and in which group (document 01, "The barring rule").
ghost use Rattle.std.specs.Prelude.{◌≡◌, ◌<◌, take, drop};
ghost use Rattle.bits.specs.Lists.{every};
ghost use Rattle.rules.specs.Inner.{is_in_range};
ghost use Rattle.rules.specs.Request.{is_user, is_service, is_destination, is_group, is_digit, is_unused, digits_used, request_refusal};

use bits::DigitCount;
use grammar::site::digit_refusal;

// A network and an SSI in it.
#[derive(Clone, Copy)]
pub struct User {
    pub network: u32,
    pub ssi: u32,
}

// An identity, or an external number of so many digits; the digits stand beside it in the request.
#[derive(Clone, Copy)]
pub enum Destination {
    Identity(User),
    Number(DigitCount),
}

#[derive(Clone, Copy)]
pub struct Request {
    pub user: User,
    pub service: u32,
    pub destination: Destination,
    pub digits: [u8; 24],
    pub group: Option<User>,
}

// Networks and SSIs are of 24 bits.
#[tactic(auto, unfolding(crate::specs::Request::is_user))]
fn is_user(u: User) -> bool
    ensures { result ≡ is_user u }
{
    u.network < 16777216 && u.ssi < 16777216
}

#[tactic(auto, unfolding(crate::specs::Request::is_service))]
fn is_service(service: u32) -> bool
    ensures { result ≡ is_service service }
{
    matches!(service, 1..=3)
}

#[tactic(auto, unfolding(crate::specs::Request::is_destination))]
fn is_destination(destination: Destination) -> bool
    ensures { result ≡ is_destination destination }
{
    match destination {
        Destination::Identity(u) => is_user(u),
        Destination::Number(length) => 1 <= length.0 && length.0 <= 24,
    }
}

#[tactic(auto, unfolding(crate::specs::Request::is_group))]
fn is_group(group: Option<User>) -> bool
    ensures { result ≡ is_group group }
{
    group.is_none_or(is_user)
}

// How many digit places the destination uses: an identity none.
#[tactic(auto, unfolding(crate::specs::Request::digits_used))]
fn digits_used(destination: Destination) -> DigitCount
    ensures { result.0 ≡ digits_used destination }
{
    match destination {
        Destination::Identity(_) => DigitCount(0),
        Destination::Number(length) => length,
    }
}

// Each used place has a legal digit. Summed, and not left at the first that is wrong (`all`): without a branch for each digit it is faster.
fn used_are_digits(digits: [u8; 24], length: DigitCount) -> bool
    ensures { result ≡ every is_digit (take length.0 digits) }
{
    let n = (length.0 as usize).min(24);
    let mut refused = 0u32;
    for &digit in &digits[..n] {
        refused += digit_refusal(digit as u32);
    }
    refused == 0
}

fn wide(digit: u8) -> u32
    ensures { (result ≡ digit) × (result < 256) }
{
    digit as u32
}

// Each place that is not used is zero. Summed for the same reason.
fn unused_are_zero(digits: [u8; 24], length: DigitCount) -> bool
    ensures { result ≡ every is_unused (drop length.0 digits) }
{
    let n = (length.0 as usize).min(24);
    let mut sum = 0u32;
    for &digit in &digits[n..] {
        sum += wide(digit);
    }
    sum == 0
}

// Each part of a request is in its range.
fn is_in_range(request: Request) -> bool
    ensures { result ≡ is_in_range request }
{
    let length = digits_used(request.destination);
    is_user(request.user)
        && is_service(request.service)
        && is_destination(request.destination)
        && is_group(request.group)
        && used_are_digits(request.digits, length)
        && unused_are_zero(request.digits, length)
}

// 9 for a request out of its range, otherwise 0.
#[tactic(auto, unfolding(crate::specs::Request::request_refusal, crate::specs::Inner::is_in_range))]
pub fn request_refusal(request: Request) -> u32
    ensures { result ≡ request_refusal request }
{
    if is_in_range(request) { 0 } else { 9 }
}
