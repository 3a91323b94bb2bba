// A session's id: two numbers, and their text as `{8-4-4-4-12}` hexadecimal digits.
#![tactic(auto)]

ghost use Rattle.std.specs.Prelude.{◌≡◌, ◌<◌, ◌≤◌, length, codes};
ghost use Rattle.std.specs.Char.{digit_value};
ghost use Rattle.std.specs.Option.{SomeIff};
ghost use Rattle.ids.specs.Ids.{digits_at, id_of, id_text, part_of, ReadsId};

#[derive(Clone, Copy, Debug, PartialEq, Eq)]
pub struct SessionId {
    pub site: u64,
    pub serial: u64,
}

const SITE_SHAPE: &[u8] = b"{xxxxxxxx-xxxx-xxxx";

const SERIAL_SHAPE: &[u8] = b"-xxxx-xxxxxxxxxxxx}";

// A table: `to_digit` compares up to six times for a byte (docs/performance.md).
static VALUES: [u8; 256] = [
    36, 36, 36, 36, 36, 36, 36, 36, 36, 36, 36, 36, 36, 36, 36, 36, 36, 36, 36, 36, 36, 36, 36, 36,
    36, 36, 36, 36, 36, 36, 36, 36, 36, 36, 36, 36, 36, 36, 36, 36, 36, 36, 36, 36, 36, 36, 36, 36,
    0, 1, 2, 3, 4, 5, 6, 7, 8, 9, 36, 36, 36, 36, 36, 36, 36, 10, 11, 12, 13, 14, 15, 16, 17, 18,
    19, 20, 21, 22, 23, 24, 25, 26, 27, 28, 29, 30, 31, 32, 33, 34, 35, 36, 36, 36, 36, 36, 36, 10,
    11, 12, 13, 14, 15, 16, 17, 18, 19, 20, 21, 22, 23, 24, 25, 26, 27, 28, 29, 30, 31, 32, 33, 34,
    35, 36, 36, 36, 36, 36, 36, 36, 36, 36, 36, 36, 36, 36, 36, 36, 36, 36, 36, 36, 36, 36, 36, 36,
    36, 36, 36, 36, 36, 36, 36, 36, 36, 36, 36, 36, 36, 36, 36, 36, 36, 36, 36, 36, 36, 36, 36, 36,
    36, 36, 36, 36, 36, 36, 36, 36, 36, 36, 36, 36, 36, 36, 36, 36, 36, 36, 36, 36, 36, 36, 36, 36,
    36, 36, 36, 36, 36, 36, 36, 36, 36, 36, 36, 36, 36, 36, 36, 36, 36, 36, 36, 36, 36, 36, 36, 36,
    36, 36, 36, 36, 36, 36, 36, 36, 36, 36, 36, 36, 36, 36, 36, 36, 36, 36, 36, 36, 36, 36, 36, 36,
    36, 36, 36, 36, 36, 36, 36, 36, 36, 36, 36, 36, 36, 36,
];

// The value of a digit or a letter, and 36 of any other byte.
fn digit_value(b: u8) -> u8
    ensures { result ≡ digit_value b }
{
    VALUES[b as usize]
}

fn hex_value(b: u8) -> Option<u32>
    ensures { SomeIff result (digit_value b < 16) (digit_value b) }
{
    let value = digit_value(b);
    (value < 16).then_some(u32::from(value))
}

// The number that the digits at the places of a shape write.
fn read_part(shape: &[u8], s: &[u8]) -> Option<u64>
    requires { length (digits_at shape.now shape.now) ≤ 16 }
    ensures { result ≡ part_of shape.now s.now }
{
    if s.len() != shape.len() {
        return None;
    }
    let mut n: u64 = 0;
    for (place, b) in shape.iter().zip(s) {
        if *place == b'x' {
            n = n * 16 + u64::from(hex_value(*b)?);
        } else if b != place {
            return None;
        }
    }
    Some(n)
}

// The id that a text of 38 bytes writes, its digits in any letter case.
pub fn read_id(s: &[u8]) -> Option<SessionId>
    ensures value { result ≡ id_of s.now }
    ensures example { id_text (record { site = 1; serial = 1 }) ≡ codes "{00000000-0000-0001-0000-000000000001}" }
    ensures told { ReadsId s.now result }
{
    let (site, serial) = s.split_at_checked(19)?;
    let site = read_part(SITE_SHAPE, site)?;
    let serial = read_part(SERIAL_SHAPE, serial)?;
    Some(SessionId { site, serial })
}
