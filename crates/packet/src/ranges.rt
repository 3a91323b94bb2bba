// A range of bytes, `bytes 0-9/10`.
ghost use Rattle.std.specs.Prelude.{◌≡◌};
ghost use Rattle.std.specs.Option.{option_map};
ghost use Rattle.packet.specs.Ranges.{before_mark, span_of, range_of, rest_of};

use text::{Kind, lead, read_decimal, same_letters};

#[derive(Clone, Copy)]
pub struct Range {
    pub first: u64,
    pub last: u64,
    pub total: u64,
}

// A number, and what follows the mark behind it.
fn number_before(s: &[u8], mark: u8) -> Option<(u64, &[u8])>
    ensures { option_map rest_of result ≡ before_mark mark s.now }
{
    let (digits, rest) = s.split_at(lead(Kind::Digit, s));
    let rest = rest.strip_prefix(&[mark])?;
    Some((read_decimal(digits)?, rest))
}

fn read_span(s: &[u8]) -> Option<Range>
    ensures { result ≡ span_of s.now }
{
    let (first, rest) = number_before(s, b'-')?;
    let (last, rest) = number_before(rest, b'/')?;
    let total = read_decimal(rest)?;
    Some(Range { first, last, total })
}

pub(crate) fn read_range(value: &[u8]) -> Option<Range>
    ensures { result ≡ range_of value.now }
{
    let (unit, rest) = value.split_at_checked(5)?;
    let blanks = lead(Kind::Blank, rest);
    if blanks == 0 || !same_letters(unit, b"bytes") {
        return None;
    }
    read_span(&rest[blanks..])
}
