// A request as words: user network, SSI; service; kind of destination, network, SSI, length, 24 digits; group given, network, SSI.
ghost use Rattle.std.specs.Prelude.{◌≡◌, length};
ghost use Rattle.words.specs.Places.{request_width};
ghost use Rattle.words.specs.RequestWords.{are_destination, are_group, are_request, destination_from, group_from, request_from, given_request};

use crate::record::{DIGIT_PLACES, digits_from, narrow_word};
use bits::DigitCount;
use rules::request::{Destination, Request, User};

// Where each word stands, and how many they are.
const USER_NETWORK: usize = 0;

const USER_SSI: usize = USER_NETWORK + 1;

const SERVICE: usize = USER_SSI + 1;

const DESTINATION_KIND: usize = SERVICE + 1;

const NETWORK: usize = DESTINATION_KIND + 1;

const SSI: usize = NETWORK + 1;

const LENGTH: usize = SSI + 1;

const DIGITS: usize = LENGTH + 1;

const GROUP_GIVEN: usize = DIGITS + DIGIT_PLACES;

const GROUP_NETWORK: usize = GROUP_GIVEN + 1;

const GROUP_SSI: usize = GROUP_NETWORK + 1;

const REQUEST_WORDS: usize = GROUP_SSI + 1;

// The destination is an identity (1) without a length, or a number (2) without network and SSI.
fn are_destination(words: &[u32]) -> bool
    requires { length words.now ≡ request_width }
    ensures { result ≡ are_destination words.now }
{
    match words[DESTINATION_KIND] {
        1 => words[LENGTH] == 0,
        2 => {
            if words[NETWORK] != 0 {
                return false;
            }
            words[SSI] == 0
        },
        _ => false,
    }
}

// The group is given (1), or not (0) and its words are zero.
fn are_group(words: &[u32]) -> bool
    requires { length words.now ≡ request_width }
    ensures { result ≡ are_group words.now }
{
    match words[GROUP_GIVEN] {
        0 => {
            if words[GROUP_NETWORK] != 0 {
                return false;
            }
            words[GROUP_SSI] == 0
        },
        1 => true,
        _ => false,
    }
}

// Whether words are those of a request: its kinds are named, and words that it does not use are zero.
fn are_request(words: &[u32]) -> bool
    requires { length words.now ≡ request_width }
    ensures { result ≡ are_request words.now }
{
    if !are_destination(words) {
        return false;
    }
    are_group(words)
}

fn destination_from(words: &[u32]) -> Destination
    requires { length words.now ≡ request_width }
    ensures { result ≡ destination_from words.now }
{
    if words[DESTINATION_KIND] == 1 {
        return Destination::Identity(User {
            network: words[NETWORK],
            ssi: words[SSI],
        });
    }
    Destination::Number(DigitCount(narrow_word(words[LENGTH])))
}

fn group_from(words: &[u32]) -> Option<User>
    requires { length words.now ≡ request_width }
    ensures { result ≡ group_from words.now }
{
    if words[GROUP_GIVEN] == 1 {
        return Some(User {
            network: words[GROUP_NETWORK],
            ssi: words[GROUP_SSI],
        });
    }
    None
}

fn fields_from(words: &[u32]) -> Request
    requires { length words.now ≡ request_width }
    ensures { result ≡ request_from words.now }
{
    let user = User {
        network: words[USER_NETWORK],
        ssi: words[USER_SSI],
    };
    Request {
        user,
        service: words[SERVICE],
        destination: destination_from(words),
        digits: digits_from(words, DIGITS),
        group: group_from(words),
    }
}

// The request of words that are one's; none of other words.
pub fn request_from(words: &[u32]) -> Option<Request>
    ensures { result ≡ given_request words.now }
{
    if words.len() != REQUEST_WORDS {
        return None;
    }
    if !are_request(words) {
        return None;
    }
    Some(fields_from(words))
}
