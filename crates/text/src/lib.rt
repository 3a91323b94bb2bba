// The bytes that a request head is made of: their classes, blanks, letter case and decimal numbers.
#![tactic(auto)]

ghost use Rattle.std.specs.Prelude.{◌≡◌, ◌≤◌, length};
ghost use Rattle.std.specs.List.{prefix_len, list_all};
ghost use Rattle.text.specs.Bytes.{class_of, passes_as};
ghost use Rattle.text.specs.Words.{trim_front, trim_end, trimmed, same_letters, named};
ghost use Rattle.text.specs.Numbers.{decimal_of};

#[derive(Clone, Copy)]
pub enum Class {
    Control,
    Separator,
    Token,
    Other,
}

const C: Class = Class::Control;

const S: Class = Class::Separator;

const T: Class = Class::Token;

const O: Class = Class::Other;

// A table, so that the whole of it is read beside the standard's list.
static CLASS: [Class; 256] = [
    C, C, C, C, C, C, C, C, C, S, C, C, C, C, C, C, C, C, C, C, C, C, C, C, C, C, C, C, C, C, C, C,
    S, T, S, T, T, T, T, T, S, S, T, T, S, T, T, S, T, T, T, T, T, T, T, T, T, T, S, S, S, S, S, S,
    S, T, T, T, T, T, T, T, T, T, T, T, T, T, T, T, T, T, T, T, T, T, T, T, T, T, T, S, S, S, T, T,
    T, T, T, T, T, T, T, T, T, T, T, T, T, T, T, T, T, T, T, T, T, T, T, T, T, T, T, S, T, S, T, C,
    O, O, O, O, O, O, O, O, O, O, O, O, O, O, O, O, O, O, O, O, O, O, O, O, O, O, O, O, O, O, O, O,
    O, O, O, O, O, O, O, O, O, O, O, O, O, O, O, O, O, O, O, O, O, O, O, O, O, O, O, O, O, O, O, O,
    O, O, O, O, O, O, O, O, O, O, O, O, O, O, O, O, O, O, O, O, O, O, O, O, O, O, O, O, O, O, O, O,
    O, O, O, O, O, O, O, O, O, O, O, O, O, O, O, O, O, O, O, O, O, O, O, O, O, O, O, O, O, O, O, O,
];

// The class of a byte.
pub fn class_of(b: u8) -> Class
    ensures { result ≡ class_of b }
{
    CLASS[b as usize]
}

// The sets of bytes that the parts of a head are made of. A set is a name, not a closure: a contract is then one equation.
#[derive(Clone, Copy)]
pub enum Kind {
    // a field's name
    Name,
    // space and tab
    Blank,
    // a field's value
    Value,
    // a path
    Visible,
    // between the entries of a list
    Divider,
    // a decimal number
    Digit,
}

// Whether `b` belongs to the set.
fn passes(kind: Kind, b: u8) -> bool
    ensures { result ≡ passes_as kind b }
{
    match kind {
        Kind::Name => matches!(class_of(b), Class::Token),
        Kind::Blank => matches!(b, b' ' | b'\t'),
        Kind::Value => !matches!(class_of(b), Class::Control),
        Kind::Visible => b.is_ascii_graphic(),
        Kind::Divider => matches!(b, b' ' | b'\t' | b','),
        Kind::Digit => b.is_ascii_digit(),
    }
}

// How many bytes of the set stand at the front.
pub fn lead(kind: Kind, s: &[u8]) -> usize
    ensures value { result ≡ prefix_len (passes_as kind) s.now }
    ensures within { result ≤ length s.now }
{
    s.iter().position(|b| !passes(kind, *b)).unwrap_or(s.len())
}

// Whether every byte belongs to the set.
pub fn all(kind: Kind, s: &[u8]) -> bool
    ensures { result ≡ list_all (passes_as kind) s.now }
{
    s.iter().all(|b| passes(kind, *b))
}

fn trim_front(s: &[u8]) -> &[u8]
    ensures { result.now ≡ trim_front s.now }
{
    &s[lead(Kind::Blank, s)..]
}

fn trim_end(mut s: &[u8]) -> &[u8]
    ensures { result.now ≡ trim_end s.now }
{
    while let [rest @ .., b' ' | b'\t'] = s {
        s = rest;
    }
    s
}

// `s` without its outer blanks.
#[tactic(auto, unfolding(crate::specs::Words::trimmed))]
pub fn trim(s: &[u8]) -> &[u8]
    ensures { result.now ≡ trimmed s.now }
{
    trim_end(trim_front(s))
}

// Whether two texts are the same but for letter case.
pub fn same_letters(a: &[u8], b: &[u8]) -> bool
    ensures { result ≡ same_letters a.now b.now }
{
    a.eq_ignore_ascii_case(b)
}

// What a table has for a word in any letter case.
pub fn named<T: Copy>(table: &[(&[u8], T)], word: &[u8]) -> Option<T>
    ensures { result ≡ named table.now word.now }
{
    table
        .iter()
        .find(|entry| same_letters(word, entry.0))
        .map(|entry| entry.1)
}

// The most digits that a number may have: every such number fits 64 bits.
pub const MOST_DIGITS: usize = 19;

// The number that `s` writes in decimal digits.
pub fn read_decimal(s: &[u8]) -> Option<u64>
    ensures { result ≡ decimal_of s.now }
{
    if s.is_empty() || s.len() > MOST_DIGITS {
        return None;
    }
    let mut n: u64 = 0;
    for b in s {
        n = n * 10 + u64::from(char::from(*b).to_digit(10)?);
    }
    Some(n)
}
