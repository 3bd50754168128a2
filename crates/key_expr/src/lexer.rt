//! Cuts a text into tokens.

ghost use Rattle.std.specs.Prelude.{◌≡◌, ◌≤◌, ◌<◌, ◌-◌, not, IfOk, length, drop, position};
ghost use Rattle.std.specs.Str.{str_eq_ignore_ascii_case};
ghost use Rattle.std.specs.Char.{is_ascii_digit};
ghost use Rattle.dbf_fields.specs.Name.{is_name_char};
ghost use Rattle.key_expr.specs.Grammar.{EndsInEnd};
ghost use Rattle.key_expr.specs.Tokens.{prefix_length, token_length as length_of, number_kind as number_of_digits, function_kind as function_of, field_index, opens as opens_next, name_kind as kind_of_name, kind_of as kind_at, tokens_of as tokens_in};

use crate::format::{CLOSE, COMMA, MAX_NAME_BYTES, OPEN, PLUS};
use crate::token::{Kind, Token};
use dbf_fields::{BLANK, Field, ZERO_DIGIT};
use std::alloc::{AllocError, Global};

// A letter, a digit or `_`.
fn is_name_byte(byte: u8) -> bool
    ensures value { result ≡ is_name_char byte }
{
    byte.is_ascii_alphanumeric() || byte == b'_'
}

// Where the first byte stands that is no letter, digit or `_`.
fn name_end(text: &[u8]) -> Option<usize>
    ensures offset { result ≡ position (λ b. not (is_name_char b)) text.now }
{
    text.iter().position(|byte| !is_name_byte(*byte))
}

// How many letters, digits and `_` are first.
#[tactic(auto, using(crate::proofs::Lexing::position_none))]
fn name_length(text: &[u8]) -> usize
    ensures value { result ≡ prefix_length is_name_char text.now }
    ensures short { result ≤ length text.now }
{
    match name_end(text) {
        Some(end) => end,
        None => text.len(),
    }
}

// Where the first byte stands that is no digit.
fn digit_end(text: &[u8]) -> Option<usize>
    ensures offset { result ≡ position (λ b. not (is_ascii_digit b)) text.now }
{
    text.iter().position(|byte| !byte.is_ascii_digit())
}

// How many digits are first.
#[tactic(auto, using(crate::proofs::Lexing::position_none))]
fn digits_length(text: &[u8]) -> usize
    ensures value { result ≡ prefix_length is_ascii_digit text.now }
    ensures short { result ≤ length text.now }
{
    match digit_end(text) {
        Some(end) => end,
        None => text.len(),
    }
}

// How many bytes the first token has.
fn token_length(text: &[u8]) -> usize
    ensures value { result ≡ length_of text.now }
    ensures short { result ≤ length text.now }
{
    match text {
        [] => 0,
        [first, rest @ ..] => {
            if first.is_ascii_alphabetic() {
                1 + name_length(rest)
            } else if first.is_ascii_digit() {
                1 + digits_length(rest)
            } else {
                1
            }
        }
    }
}

// What a digit stands for.
fn digit(byte: u8) -> u16
    ensures value { result ≡ byte - ZERO_DIGIT }
    ensures bounded { result ≤ u8.MAX - ZERO_DIGIT }
{
    u16::from(byte.saturating_sub(ZERO_DIGIT))
}

// A number of 1 to 3 digits.
fn number_kind(digits: &[u8]) -> Kind
    ensures value { result ≡ number_of_digits digits.now }
{
    match digits {
        [a] => Kind::Number(digit(*a)),
        [a, b] => Kind::Number(digit(*a) * 10 + digit(*b)),
        [a, b, c] => Kind::Number((digit(*a) * 10 + digit(*b)) * 10 + digit(*c)),
        _ => Kind::Bad,
    }
}

// The function of a name.
fn function_kind(name: &[u8]) -> Kind
    ensures value { result ≡ function_of name.now }
{
    if name.eq_ignore_ascii_case(b"UPPER") {
        Kind::Upper
    } else if name.eq_ignore_ascii_case(b"SUBSTR") {
        Kind::Substr
    } else if name.eq_ignore_ascii_case(b"STR") {
        Kind::Str
    } else if name.eq_ignore_ascii_case(b"DTOC") {
        Kind::Dtoc
    } else {
        Kind::Bad
    }
}

// Whether the field has the name.
fn has_name(field: &Field, name: &[u8]) -> bool
    ensures value { result ≡ str_eq_ignore_ascii_case name.now field.now.name }
{
    name.eq_ignore_ascii_case(field.name.as_slice())
}

// Where the field stands that has the name.
fn field_named(fields: &[Field], name: &[u8]) -> Option<usize>
    ensures index { result ≡ position (λ f. str_eq_ignore_ascii_case name.now f.name) fields.now }
{
    fields.iter().position(|field| has_name(field, name))
}

// The index of the field that has the name, or the number of all fields where none has it.
#[tactic(auto, using(crate::proofs::Lexing::position_none))]
fn field_index(fields: &[Field], name: &[u8]) -> usize
    ensures value { result ≡ field_index fields.now name.now }
{
    match field_named(fields, name) {
        Some(index) => index,
        None => fields.len(),
    }
}

// Whether an opening parenthesis is next, after blanks or none.
fn opens(text: &[u8]) -> bool
    ensures value { result ≡ opens_next text.now }
{
    let mut rest = text;
    while let [BLANK, after @ ..] = rest {
        rest = after;
    }
    match rest {
        [OPEN, ..] => true,
        _ => false,
    }
}

// A name: a function's before an opening parenthesis, else a field's.
fn name_kind(fields: &[Field], name: &[u8], after: &[u8]) -> Kind
    ensures value { result ≡ kind_of_name fields.now name.now after.now }
{
    if name.len() > MAX_NAME_BYTES {
        Kind::Bad
    } else if opens(after) {
        function_kind(name)
    } else {
        Kind::Name(field_index(fields, name))
    }
}

// What the first token is.
#[tactic(auto, unfolding(crate::specs::Tokens::kind_of))]
fn kind_of(fields: &[Field], text: &[u8]) -> Kind
    ensures value { result ≡ kind_at fields.now text.now }
{
    let [first, ..] = text else {
        return Kind::End;
    };
    let (word, after) = text.split_at(token_length(text));
    match *first {
        PLUS => Kind::Plus,
        OPEN => Kind::Open,
        CLOSE => Kind::Close,
        COMMA => Kind::Comma,
        _ => {
            if first.is_ascii_digit() {
                number_kind(word)
            } else if first.is_ascii_alphabetic() {
                name_kind(fields, word, after)
            } else {
                Kind::Bad
            }
        }
    }
}

// What is after the first token.
fn after_token(text: &[u8]) -> &[u8]
    ensures value { result.now ≡ drop (length_of text.now) text.now }
    ensures shorter { 0 < length text.now → length result.now < length text.now }
{
    &text[token_length(text)..]
}

/// The tokens of a text and its end, with the indexes of the fields that they name.
#[tactic(auto, using(crate::proofs::Lexing::ends_in_end))]
pub(crate) fn tokens_of(
    alloc: Global,
    fields: &[Field],
    text: &[u8],
) -> Result<Vec<Token>, AllocError>
    ensures value { IfOk result (λ tokens. tokens.items ≡ tokens_in fields.now text.now) }
    ensures ended { IfOk result (λ tokens. EndsInEnd tokens.items) }
{
    let mut tokens = Vec::new(alloc);
    let mut rest = text;
    while let [first, after @ ..] = rest {
        if *first == BLANK {
            rest = after;
        } else {
            tokens.push(Token {
                kind: kind_of(fields, rest),
                offset: text.len() - rest.len(),
            })?;
            rest = after_token(rest);
        }
    }
    tokens.push(Token {
        kind: Kind::End,
        offset: text.len(),
    })?;
    Ok(tokens)
}
