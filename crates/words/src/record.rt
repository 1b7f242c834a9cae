// A record as words: PDU type; affected users; interrogation type, result, delivery status; services; the five lists;
// delivery to affected users, acknowledgement from them, definition type; definition result, distribution result, rejection cause.
ghost use Rattle.std.specs.Prelude.{◌≡◌, ◌∷◌, [], ◌+◌, ◌≤◌, ◌<◌, length, take, drop};
ghost use Rattle.words.specs.Places.{digit_places, identity_width, identities_width, number_width, numbers_width, services_width, lists_width, record_width};
ghost use Rattle.words.specs.Inner.{Put};
ghost use Rattle.words.specs.RecordWords.{word, identity_words, identities_words, number_words, numbers_words, services_words, lists_words, record_words, narrow, narrowed, identity_from, identities_from, number_from, numbers_from, services_from, lists_from, figures_from, record_from, given_record, given_figures, put_record};

use crate::entries::{Spelt, Stored, each_from, list_from, put_each, put_list};
use bits::DigitCount;
use grammar::record::{Figures, Identities, Identity, Lists, Number, Numbers, Record, Services};
use grammar::zero::{zero_figures, zero_numbers};

// ---- how many words each part has, and where it begins: after those before it

// Entries of a list, digits of a number, services.
pub(crate) const LIST_PLACES: usize = 8;

pub(crate) const DIGIT_PLACES: usize = 24;

const SERVICE_PLACES: usize = 7;

pub const IDENTITY_WORDS: usize = 3;

pub const IDENTITIES_WORDS: usize = 1 + LIST_PLACES * IDENTITY_WORDS;

pub const NUMBER_WORDS: usize = 1 + DIGIT_PLACES;

pub const NUMBERS_WORDS: usize = 1 + LIST_PLACES * NUMBER_WORDS;

pub const SERVICES_WORDS: usize = 1 + SERVICE_PLACES;

// The five lists, groups first.
const RESTRICTED: usize = IDENTITIES_WORDS;

const EXCEPTIONS: usize = RESTRICTED + IDENTITIES_WORDS;

const RESTRICTED_NUMBERS: usize = EXCEPTIONS + IDENTITIES_WORDS;

const EXCEPTED_NUMBERS: usize = RESTRICTED_NUMBERS + NUMBERS_WORDS;

pub const LISTS_WORDS: usize = EXCEPTED_NUMBERS + NUMBERS_WORDS;

// The record.
pub const PDU_TYPE: usize = 0;

pub const AFFECTED: usize = PDU_TYPE + 1;

pub const INTERROGATION_TYPE: usize = AFFECTED + IDENTITIES_WORDS;

const INTERROGATION_RESULT: usize = INTERROGATION_TYPE + 1;

const DELIVERY_STATUS: usize = INTERROGATION_RESULT + 1;

pub const SERVICE_COUNT: usize = DELIVERY_STATUS + 1;

pub const GROUPS: usize = SERVICE_COUNT + SERVICES_WORDS;

pub const DELIVERY: usize = GROUPS + LISTS_WORDS;

const ACKNOWLEDGEMENT: usize = DELIVERY + 1;

const DEFINITION_TYPE: usize = ACKNOWLEDGEMENT + 1;

const DEFINITION_RESULT: usize = DEFINITION_TYPE + 1;

const DISTRIBUTION_RESULT: usize = DEFINITION_RESULT + 1;

const REJECTION_CAUSE: usize = DISTRIBUTION_RESULT + 1;

pub const RECORD_WORDS: usize = REJECTION_CAUSE + 1;

// ---- the parts of a record

// SSI, extension present, extension.
impl Spelt for Identity {
    const WIDTH: usize = IDENTITY_WORDS;

    ghost WIDTH = { identity_width };

    ghost spelt = { identity_words };

    ghost meant = { identity_from };
}

impl Stored for Identity {
    fn put(self, words: &mut [u32], at: usize) -> usize {
        put_three(words, at, self.ssi, self.present, self.extension)
    }

    fn read(words: &[u32], at: usize) -> Identity {
        Identity {
            ssi: words[at],
            present: words[at + 1],
            extension: words[at + 2],
        }
    }
}

// The length and the digits.
impl Spelt for Number {
    const WIDTH: usize = NUMBER_WORDS;

    ghost WIDTH = { number_width };

    ghost spelt = { number_words };

    ghost meant = { number_from };
}

impl Stored for Number {
    fn put(self, words: &mut [u32], at: usize) -> usize {
        let first = put_word(words, at, self.length.0 as u32);
        put_each(words, first, &self.digits)
    }

    fn read(words: &[u32], at: usize) -> Number {
        Number {
            length: DigitCount(narrow_word(words[at])),
            digits: digits_from(words, at + 1),
        }
    }
}

// A digit: a word that is no digit is one neither as a byte.
impl Spelt for u8 {
    const WIDTH: usize = 1;

    ghost WIDTH = { 1 };

    ghost spelt = { λ b. b ∷ [] };

    ghost meant = { λ w. narrow (word w 0) };
}

impl Stored for u8 {
    fn put(self, words: &mut [u32], at: usize) -> usize {
        put_word(words, at, self as u32)
    }

    fn read(words: &[u32], at: usize) -> u8 {
        narrow_word(words[at])
    }
}

// The range type and the identities.
impl Spelt for Identities {
    const WIDTH: usize = IDENTITIES_WORDS;

    ghost WIDTH = { identities_width };

    ghost spelt = { identities_words };

    ghost meant = { identities_from };
}

impl Stored for Identities {
    fn put(self, words: &mut [u32], at: usize) -> usize {
        put_list(words, at, self.code, &self.entries)
    }

    fn read(words: &[u32], at: usize) -> Identities {
        let (code, entries) = list_from(words, at, Identity::default());
        Identities { code, entries }
    }
}

// The range type and the numbers.
impl Spelt for Numbers {
    const WIDTH: usize = NUMBERS_WORDS;

    ghost WIDTH = { numbers_width };

    ghost spelt = { numbers_words };

    ghost meant = { numbers_from };
}

impl Stored for Numbers {
    fn put(self, words: &mut [u32], at: usize) -> usize {
        put_list(words, at, self.code, &self.entries)
    }

    fn read(words: &[u32], at: usize) -> Numbers {
        let (code, entries) = list_from(words, at, zero_numbers().entries[0]);
        Numbers { code, entries }
    }
}

// Their number and the services.
impl Spelt for Services {
    const WIDTH: usize = SERVICES_WORDS;

    ghost WIDTH = { services_width };

    ghost spelt = { services_words };

    ghost meant = { services_from };
}

impl Stored for Services {
    fn put(self, words: &mut [u32], at: usize) -> usize {
        let first = put_word(words, at, self.count);
        let end = first + SERVICE_PLACES;
        words[first..end].copy_from_slice(&self.list);
        end
    }

    fn read(words: &[u32], at: usize) -> Services {
        let first = at + 1;
        let mut list = [0u32; SERVICE_PLACES];
        list.copy_from_slice(&words[first..first + SERVICE_PLACES]);
        Services {
            count: words[at],
            list,
        }
    }
}

// ---- to words; each writer returns the place after what it writes

pub(crate) fn put_word(words: &mut [u32], at: usize, word: u32) -> usize
    requires { at < length words.old }
    ensures { Put words.old at (word ∷ []) 1 words.new result }
{
    words[at] = word;
    at + 1
}

fn put_three(words: &mut [u32], at: usize, first: u32, second: u32, third: u32) -> usize
    requires { at + 3 ≤ length words.old }
    ensures { Put words.old at (first ∷ second ∷ third ∷ []) 3 words.new result }
{
    let end = at + 3;
    words[at..end].copy_from_slice(&[first, second, third]);
    end
}

fn put_lists(words: &mut [u32], at: usize, lists: Lists) -> usize
    requires { at + lists_width ≤ length words.old }
    ensures { Put words.old at (lists_words lists) lists_width words.new result }
{
    let groups = lists.groups;
    let restricted = lists.restricted;
    let exceptions = lists.exceptions;
    let numbers = lists.numbers;
    let excepted = lists.excepted;
    let restricted_at = groups.put(words, at);
    let exceptions_at = restricted.put(words, restricted_at);
    let numbers_at = exceptions.put(words, exceptions_at);
    let excepted_at = numbers.put(words, numbers_at);
    excepted.put(words, excepted_at)
}

fn put_fields(words: &mut [u32], found: Record)
    requires { length words.old ≡ record_width }
    ensures { words.new ≡ record_words found }
{
    let affected = found.affected;
    let figures = found.figures;
    let services = found.services;
    let lists = found.lists;
    let affected_at = put_word(words, PDU_TYPE, found.kind);
    let asked_at = affected.put(words, affected_at);
    let services_at = put_three(
        words,
        asked_at,
        figures.asked,
        figures.result,
        figures.status,
    );
    let lists_at = services.put(words, services_at);
    let delivery_at = put_lists(words, lists_at, lists);
    let defined_at = put_three(
        words,
        delivery_at,
        figures.delivery,
        figures.acknowledgement,
        figures.definition,
    );
    put_three(
        words,
        defined_at,
        figures.defined,
        figures.distributed,
        figures.cause,
    );
}

// The words of a record in place of those that were there, if there are as many.
pub fn put_record(words: &mut [u32], found: Record)
    ensures { words.new ≡ put_record found words.old }
{
    if words.len() == RECORD_WORDS {
        put_fields(words, found);
    }
}

// ---- from words

// A word as a byte; one that is wider becomes 255, which its element refuses.
pub(crate) fn narrow_word(word: u32) -> u8
    ensures { result ≡ narrow word }
{
    u8::try_from(word).unwrap_or(255)
}

// The 24 digits from a place on.
pub(crate) fn digits_from(words: &[u32], at: usize) -> [u8; 24]
    requires { at + digit_places ≤ length words.now }
    ensures { result ≡ narrowed (take digit_places (drop at words.now)) }
{
    let mut digits = [0u8; DIGIT_PLACES];
    each_from(words, at, &mut digits);
    digits
}

fn lists_from(words: &[u32], at: usize) -> Lists
    requires { at + lists_width ≤ length words.now }
    ensures { result ≡ lists_from (drop at words.now) }
{
    Lists {
        groups: Identities::read(words, at),
        restricted: Identities::read(words, at + RESTRICTED),
        exceptions: Identities::read(words, at + EXCEPTIONS),
        numbers: Numbers::read(words, at + RESTRICTED_NUMBERS),
        excepted: Numbers::read(words, at + EXCEPTED_NUMBERS),
    }
}

fn nine_from(words: &[u32]) -> Figures
    requires { length words.now ≡ record_width }
    ensures { result ≡ figures_from words.now }
{
    Figures {
        asked: words[INTERROGATION_TYPE],
        result: words[INTERROGATION_RESULT],
        status: words[DELIVERY_STATUS],
        delivery: words[DELIVERY],
        acknowledgement: words[ACKNOWLEDGEMENT],
        definition: words[DEFINITION_TYPE],
        defined: words[DEFINITION_RESULT],
        distributed: words[DISTRIBUTION_RESULT],
        cause: words[REJECTION_CAUSE],
    }
}

fn fields_from(words: &[u32]) -> Record
    requires { length words.now ≡ record_width }
    ensures { result ≡ record_from words.now }
{
    Record {
        kind: words[PDU_TYPE],
        affected: Identities::read(words, AFFECTED),
        figures: nine_from(words),
        services: Services::read(words, SERVICE_COUNT),
        lists: lists_from(words, GROUPS),
    }
}

// The record of as many words as one has; none of another number of words.
pub fn record_from(words: &[u32]) -> Option<Record>
    ensures { result ≡ given_record words.now }
{
    if words.len() != RECORD_WORDS {
        return None;
    }
    Some(fields_from(words))
}

// The figures of as many words as a record has, otherwise zeros.
pub fn figures_from(words: &[u32]) -> Figures
    ensures { result ≡ given_figures words.now }
{
    if words.len() != RECORD_WORDS {
        return zero_figures();
    }
    nine_from(words)
}
