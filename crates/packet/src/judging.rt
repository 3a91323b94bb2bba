// The known fields, judged in order.
ghost use Rattle.std.specs.Prelude.{◌≡◌, ℕ, List, Option};
ghost use Rattle.head.specs.Heads.{table};
ghost use Rattle.text.specs.Numbers.{decimal_of};
ghost use Rattle.packet.specs.Judging.{is_fragment, if_empty, kind_named, length_of, kind_of, id_of_field, encoding_of, protocols_of_field, fragment_of, action_of, judged_of, given, judged_by, and_then, line_of, lined};

use crate::Fault;
use crate::protocols::read_protocols;
use crate::ranges::{Range, read_range};
use head::{Fields, Known};
use ids::{SessionId, read_id};
use text::{named, read_decimal, same_letters};

// What a request asks for.
#[derive(Clone, Copy)]
pub enum Action {
    // whether our protocol is among those offered; it is no fault of the packet's, and is told after others
    Create {
        shared: bool,
    },
    Ping,
    // `at` is the offset of the range's line
    Fragment {
        id: SessionId,
        range: Range,
        at: usize,
    },
    Close {
        id: SessionId,
    },
    Cancel {
        id: SessionId,
    },
}

// What the type reads. No action is made of it before the fields that it needs are judged.
#[derive(Clone, Copy)]
pub(crate) enum Kind {
    Create,
    Ping,
    Fragment,
    Close,
    Cancel,
}

#[derive(Clone, Copy)]
pub(crate) struct Judged {
    pub(crate) length: u64,
    pub(crate) action: Action,
}

fn required<'a>(field: Option<Known<'a>>) -> Result<Known<'a>, Fault>
    ensures { lined result ≡ given (line_of field.entry) }
{
    field.ok_or(Fault::Field(0))
}

// Whether the packet type reads FRAGMENT, before it is judged.
fn is_fragment(fields: Fields) -> bool
    ensures { result ≡ is_fragment (line_of fields.entry.packet_type) }
{
    fields
        .packet_type
        .is_some_and(|line| same_letters(line.value, b"FRAGMENT"))
}

// A field that must stand, and what its value reads as.
fn judge_by<'a, T, R: FnOnce(&'a [u8]) -> Option<T>>(
    field: Option<Known<'a>>,
    read: R,
) -> Result<T, Fault>
    requires { R.IsAlwaysCallable read }
    ensures { (of : List ℕ → Option T) → ((v : _) (x : _) → R.post read v x → x ≡ of v.now) → result ≡ and_then (given (line_of field.entry)) (judged_by of) }
{
    let line = required(field)?;
    read(line.value).ok_or(Fault::Field(line.at))
}

// The announced bytes: only a fragment has a body.
fn announced(value: &[u8], fragment: bool) -> Option<u64>
    ensures { result ≡ if_empty fragment (decimal_of value.now) }
{
    let n = read_decimal(value)?;
    (n == 0 || fragment).then_some(n)
}

fn judge_length(fields: Fields) -> Result<u64, Fault>
    ensures { result ≡ length_of (table fields.entry) }
{
    let fragment = is_fragment(fields);
    judge_by(fields.content_length, |value| announced(value, fragment))
}

static KINDS: [(&[u8], Kind); 5] = [
    (b"CREATE-SESSION", Kind::Create),
    (b"PING", Kind::Ping),
    (b"FRAGMENT", Kind::Fragment),
    (b"CLOSE-SESSION", Kind::Close),
    (b"CANCEL-SESSION", Kind::Cancel),
];

#[tactic(auto, unfolding(crate::specs::Judging::kind_named))]
fn kind_named(value: &[u8]) -> Option<Kind>
    ensures { result ≡ kind_named value.now }
{
    named(&KINDS, value)
}

fn judge_kind(fields: Fields) -> Result<Kind, Fault>
    ensures { result ≡ kind_of (table fields.entry) }
{
    judge_by(fields.packet_type, kind_named)
}

fn judge_id(fields: Fields) -> Result<SessionId, Fault>
    ensures { result ≡ id_of_field (table fields.entry) }
{
    judge_by(fields.session_id, read_id)
}

fn judge_encoding(fields: Fields) -> Result<(), Fault>
    ensures { result ≡ encoding_of (line_of fields.entry.content_encoding) }
{
    match fields.content_encoding {
        Some(line) if !same_letters(line.value, b"identity") => Err(Fault::Field(line.at)),
        _ => Ok(()),
    }
}

fn judge_protocols(fields: Fields) -> Result<bool, Fault>
    ensures { result ≡ protocols_of_field (table fields.entry) }
{
    judge_by(fields.supported_protocols, read_protocols)
}

fn judge_fragment(fields: Fields) -> Result<Action, Fault>
    ensures { result ≡ fragment_of (table fields.entry) }
{
    let id = judge_id(fields)?;
    let line = required(fields.content_range)?;
    let range = read_range(line.value).ok_or(Fault::Field(line.at))?;
    judge_encoding(fields)?;
    Ok(Action::Fragment {
        id,
        range,
        at: line.at,
    })
}

fn judge_action(kind: Kind, fields: Fields) -> Result<Action, Fault>
    ensures { result ≡ action_of kind (table fields.entry) }
{
    match kind {
        Kind::Create => Ok(Action::Create {
            shared: judge_protocols(fields)?,
        }),
        Kind::Ping => Ok(Action::Ping),
        Kind::Fragment => judge_fragment(fields),
        Kind::Close => Ok(Action::Close {
            id: judge_id(fields)?,
        }),
        Kind::Cancel => Ok(Action::Cancel {
            id: judge_id(fields)?,
        }),
    }
}

pub(crate) fn judge(fields: Fields) -> Result<Judged, Fault>
    ensures { result ≡ judged_of (table fields.entry) }
{
    let length = judge_length(fields)?;
    let kind = judge_kind(fields)?;
    let action = judge_action(kind, fields)?;
    Ok(Judged { length, action })
}
