// One line of a head: the request line, or a field.
ghost use Rattle.std.specs.Prelude.{◌≡◌, ◌≤◌, length, IfSome};
ghost use Rattle.std.specs.Option.{option_map};
ghost use Rattle.head.specs.Marks.{line_length};
ghost use Rattle.head.specs.Lines.{good_path, path_of, field_of, entry};
ghost use Rattle.head.specs.Loops.{first_line, ends_here};

use text::Kind;

// The most bytes of a path.
pub const MOST_PATH: usize = 128;

// The most bytes of a value.
pub const MOST_VALUE: usize = 4096;

// A field: the offset of its line, its name, its value without outer blanks, the bytes of its line.
#[derive(Clone, Copy)]
pub struct Field<'a> {
    pub at: usize,
    pub name: &'a [u8],
    pub value: &'a [u8],
    pub length: usize,
}

// The bytes before the first line end.
pub(crate) fn line_length(s: &[u8]) -> usize
    ensures value { result ≡ line_length s.now }
    ensures within { result ≤ length s.now }
{
    s.windows(2)
        .position(|w| w == b"\r\n".as_slice())
        .unwrap_or(s.len())
}

fn is_path(p: &[u8]) -> bool
    ensures { result ≡ good_path p.now }
{
    p.starts_with(b"/") && p.len() <= MOST_PATH && text::all(Kind::Visible, p)
}

// The path of a request line.
pub(crate) fn read_path(line: &[u8]) -> Option<&[u8]>
    ensures { option_map (λ p. p.now) result ≡ path_of line.now }
{
    line.strip_prefix(b"BITS_POST ")?
        .strip_suffix(b" HTTP/1.1")
        .filter(|path| is_path(path))
}

// Whether a line ends here.
fn is_end(s: &[u8]) -> bool
    ensures { result ≡ ends_here s.now }
{
    s.is_empty() || s.starts_with(b"\r\n")
}

// The field that the first line of `rest` holds; `at` is that line's offset. No byte of a name or a value begins a line end.
pub(crate) fn read_field(at: usize, rest: &[u8]) -> Option<Field<'_>>
    ensures value { option_map entry result ≡ field_of at (first_line rest.now) }
    ensures long { IfSome result (λ f. f.length ≡ line_length rest.now) }
{
    let (name, rest) = rest.split_at(text::lead(Kind::Name, rest));
    // asked first, so that no value is measured behind no name
    if name.is_empty() {
        return None;
    }
    let after = rest.strip_prefix(b":")?;
    let (value, rest) = after.split_at(text::lead(Kind::Value, after));
    if !is_end(rest) {
        return None;
    }
    let length = name.len() + 1 + value.len();
    let value = text::trim(value);
    if value.len() > MOST_VALUE {
        return None;
    }
    Some(Field {
        at,
        name,
        value,
        length,
    })
}
