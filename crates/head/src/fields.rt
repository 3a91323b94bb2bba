// The fields of a head, and which of them are known.
ghost use Rattle.std.specs.Prelude.{◌≡◌, ◌+◌, ◌≤◌, length, drop, is_none, IfOk};
ghost use Rattle.std.specs.Option.{option_or};
ghost use Rattle.head.specs.Marks.{line_length};
ghost use Rattle.head.specs.Lines.{field_of, fields_of};
ghost use Rattle.head.specs.Heads.{Table, Found, name_of, slot_of, with_slot, again, kept_as, empty, gathered, found, table, tabled};
ghost use Rattle.head.specs.Loops.{with_line, lines_after, first_line, added};

use crate::Fault;
use crate::lines::read_field;
use text::named;

// The most fields of a head.
pub const MOST_FIELDS: usize = 64;

// The fields that mean something here.
#[derive(Clone, Copy)]
pub enum Name {
    ContentLength,
    PacketType,
    SessionId,
    ContentRange,
    ContentEncoding,
    SupportedProtocols,
}

// A known field: its line's offset and its value.
#[derive(Clone, Copy)]
pub struct Known<'a> {
    pub at: usize,
    pub value: &'a [u8],
}

// The known fields of a head, and the offset of the first that stands again. Named, not a map: each is judged by its own rule, by its name.
#[derive(Clone, Copy, Default)]
pub struct Fields<'a> {
    pub content_length: Option<Known<'a>>,
    pub packet_type: Option<Known<'a>>,
    pub session_id: Option<Known<'a>>,
    pub content_range: Option<Known<'a>>,
    pub content_encoding: Option<Known<'a>>,
    pub supported_protocols: Option<Known<'a>>,
    pub repeated: Option<usize>,
}

static NAMES: [(&[u8], Name); 6] = [
    (b"Content-Length", Name::ContentLength),
    (b"BITS-Packet-Type", Name::PacketType),
    (b"BITS-Session-Id", Name::SessionId),
    (b"Content-Range", Name::ContentRange),
    (b"Content-Encoding", Name::ContentEncoding),
    (b"BITS-Supported-Protocols", Name::SupportedProtocols),
];

// The known field that a name means.
#[tactic(auto, unfolding(crate::specs::Heads::name_of))]
fn name_of(name: &[u8]) -> Option<Name>
    ensures { result ≡ name_of name.now }
{
    named(&NAMES, name)
}

// Fills a free slot; whether it was free.
fn fill<'a>(slot: &mut Option<Known<'a>>, known: Known<'a>) -> bool
    ensures free { result ≡ is_none slot.old }
    ensures filled { slot.new ≡ option_or slot.old (Some known.entry) }
{
    let free = slot.is_none();
    *slot = slot.or(Some(known));
    free
}

impl<'a> Fields<'a> {
    // Keeps a known field; of those that stand again the first is noted.
    fn keep(&mut self, name: Name, known: Known<'a>)
        ensures { table self.new ≡ kept_as (table self.old) (Some name) (found known.entry) }
    {
        let free = match name {
            Name::ContentLength => fill(&mut self.content_length, known),
            Name::PacketType => fill(&mut self.packet_type, known),
            Name::SessionId => fill(&mut self.session_id, known),
            Name::ContentRange => fill(&mut self.content_range, known),
            Name::ContentEncoding => fill(&mut self.content_encoding, known),
            Name::SupportedProtocols => fill(&mut self.supported_protocols, known),
        };
        if !free {
            self.repeated = self.repeated.or(Some(known.at));
        }
    }

    // Adds the field of the first line of `rest`; how long the line is, if it is good.
    fn add_line(&mut self, at: usize, rest: &'a [u8]) -> Result<usize, Fault>
        ensures value { added result (table self.new) ≡ with_line (table self.old) at (field_of at (first_line rest.now)) }
        ensures long { IfOk result (λ n. n ≡ line_length rest.now) }
    {
        let f = read_field(at, rest).ok_or(Fault::Malformed(at))?;
        if let Some(name) = name_of(f.name) {
            self.keep(
                name,
                Known {
                    at: f.at,
                    value: f.value,
                },
            );
        }
        Ok(f.length)
    }
}

// The known fields of the lines behind the one that ends at `first`.
pub(crate) fn read_fields(body: &[u8], first: usize) -> Result<Fields<'_>, Fault>
    requires { first ≤ length body.now }
    ensures { tabled result ≡ gathered empty (fields_of 64 (first + 2) (lines_after (drop first body.now))) }
{
    let mut fields = Fields::default();
    // an offset and not what is left: a fault names its line's offset
    let mut end = first;
    for _done in 0..MOST_FIELDS {
        if body.len() - end < 2 {
            return Ok(fields);
        }
        let at = end + 2;
        end = at + fields.add_line(at, &body[at..])?;
    }
    if body.len() - end < 2 {
        Ok(fields)
    } else {
        Err(Fault::Malformed(end + 2))
    }
}
