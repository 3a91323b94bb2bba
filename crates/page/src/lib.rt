// Writes pieces one after another into a page: bytes, numbers and ids.
#![tactic(auto)]

ghost use Rattle.std.specs.Prelude.{◌≡◌, ◌<◌, decimal};
ghost use Rattle.ids.specs.Ids.{hex_digit, hexes, id_text};
ghost use Rattle.page.specs.Page.{Wrote};

use ids::SessionId;

// A place in a page. Each method writes from there on, as far as the page reaches, and moves just past what it wrote.
#[derive(Drop)]
pub struct Writer<'a> {
    page: &'a mut [u8],
    pub at: usize,
}

impl<'a> Writer<'a> {
    pub fn new(page: &'a mut [u8], at: usize) -> Self
        ensures page { result.page.now ≡ page.old }
        ensures same_page { result.page.ghost_name ≡ page.entry.ghost_name }
        ensures at { result.at ≡ at }
    {
        Writer { page, at }
    }

    pub fn put(&mut self, s: &[u8])
        ensures { Wrote self.old s.now self.new }
    {
        if self.at >= self.page.len() {
            return;
        }
        let n = s.len().min(self.page.len() - self.at);
        self.page[self.at..self.at + n].copy_from_slice(&s[..n]);
        self.at += n;
    }

    // A number in decimal, with no leading zero: the digits before the last first, however many they are.
    pub fn put_decimal(&mut self, n: u64)
        ensures { Wrote self.old (decimal n) self.new }
    {
        if n >= 10 {
            self.put_decimal(n / 10);
        }
        self.put(&[b'0' + (n % 10) as u8]);
    }

    // The last `digits` hexadecimal digits of a number, in capitals.
    pub fn put_hex(&mut self, digits: u8, n: u64)
        ensures { Wrote self.old (hexes digits n) self.new }
    {
        if digits >= 4 {
            self.put_hex(digits - 4, n / 65536);
            self.put(&four(n));
        } else if digits > 0 {
            self.put_hex(digits - 1, n / 16);
            self.put(&[hex_digit((n % 16) as u8)]);
        }
    }

    // An id as `{8-4-4-4-12}` digits in capitals.
    pub fn put_id(&mut self, id: SessionId)
        ensures { Wrote self.old (id_text id) self.new }
    {
        self.put(b"{");
        self.put_hex(8, id.site >> 32);
        self.put(b"-");
        self.put_hex(4, id.site >> 16);
        self.put(b"-");
        self.put_hex(4, id.site);
        self.put(b"-");
        self.put_hex(4, id.serial >> 48);
        self.put(b"-");
        self.put_hex(12, id.serial);
        self.put(b"}");
    }
}

// In capitals, which `char::from_digit` does not give.
fn hex_digit(n: u8) -> u8
    requires { n < 16 }
    ensures { result ≡ hex_digit n }
{
    if n < 10 { b'0' + n } else { b'A' + (n - 10) }
}

// The last four hexadecimal digits of a number.
fn four(n: u64) -> [u8; 4]
    ensures { result ≡ hexes 4 n }
{
    [
        hex_digit((n / 16 / 16 / 16 % 16) as u8),
        hex_digit((n / 16 / 16 % 16) as u8),
        hex_digit((n / 16 % 16) as u8),
        hex_digit((n % 16) as u8),
    ]
}
