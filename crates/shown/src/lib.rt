// Bytes as a terminal may show them.
#![tactic(auto)]

ghost use Rattle.std.specs.Prelude.{◌≡◌, Some};
ghost use Rattle.std.specs.Fmt.{WritesOnOk};
ghost use Rattle.shown.specs.Terminal.{glyphs, plain, printable, text};

use std::fmt;

fn is_printable(b: u8) -> bool
    ensures { result ≡ printable b }
{
    matches!(b, 0x20..=0x7e)
}

fn is_plain(b: u8, escaped: bool) -> bool
    ensures { result ≡ plain escaped b }
{
    is_printable(b) && !(escaped && b == b'\\')
}

#[tactic(auto, using(std::proofs::lemmas::Fmt::hex_byte))]
fn write_byte<W: fmt::Write>(f: &mut fmt::Formatter<W>, b: u8, escaped: bool) -> fmt::Result
    ensures { WritesOnOk W.write_str_gives f.old result (glyphs escaped b) f.new }
{
    if is_plain(b, escaped) {
        f.write_char(b as char)
    } else {
        write!(f, "\\x{b:02x}")
    }
}

// Any byte that is not printable as `\xNN`; where `ESCAPED`, the backslash too, so that no two texts of bytes look alike.
#[derive(Clone, Copy)]
pub struct Shown<'a, const ESCAPED: bool>(pub &'a [u8]);

impl<const ESCAPED: bool> fmt::Display for Shown<'_, ESCAPED> {
    ghost output = { λ shown. Some (text ESCAPED shown.0.now) };

    fn fmt<W: fmt::Write>(&self, f: &mut fmt::Formatter<W>) -> fmt::Result {
        for b in self.0 {
            write_byte(f, *b, ESCAPED)?;
        }
        Ok(())
    }
}
