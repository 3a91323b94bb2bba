// The lines of an acknowledgement, one after another in a page.
ghost use Rattle.std.specs.Prelude.{◌≡◌, [], if◌then◌else◌};
ghost use Rattle.std.specs.Option.{option_copied};
ghost use Rattle.page.specs.Page.{Wrote};
ghost use Rattle.reply.specs.Visible.{IsAddress};
ghost use Rattle.ack.specs.Lines.{told_by};
ghost use Rattle.ack.specs.Told.{KnownId, KnownReceived, KnownRefusal, received_of, reply_of, status_of, Tellable};
ghost use Rattle.ack.specs.Text.{ack_text, address_lines, ended, error_lines, found_lines, id_lines, status_line};

use super::told::Progress;
use ids::SessionId;
use outcome::{Refusal, Status};
use page::Writer;

// After the status, in every acknowledgement.
const COMMON_LINES: &[u8] = b"\r\nBITS-Packet-Type: Ack\r\nContent-Length: 0\r\n";

const ENCODING_LINE: &[u8] = b"Accept-Encoding: identity\r\n";

const LINE_END: &[u8] = b"\r\n";

const BLANK_LINE: &[u8] = b"\r\n";

const PROTOCOL_LINE: &[u8] = b"BITS-Protocol: {7df0354d-249b-430f-820d-3d2a9bef4931}\r\n";

// What an acknowledgement tells.
#[derive(Clone, Copy)]
pub struct Lines<'a> {
    pub refusal: Option<Refusal>,
    pub opened: bool,
    pub id: Option<SessionId>,
    pub found: Option<&'a Progress>,
}

pub const NOTHING: Lines<'static> = Lines {
    refusal: None,
    opened: false,
    id: None,
    found: None,
};

fn status_of(refusal: Option<Refusal>) -> Status
    ensures { result ≡ status_of refusal }
{
    refusal.map_or(Status::Ok, |refusal| refusal.status)
}

fn put_status(page: &mut Writer, status: Status)
    ensures { Wrote page.old (status_line status) page.new }
{
    page.put(b"HTTP/1.1 ");
    page.put_decimal(u64::from(status.number()));
    page.put(b" ");
    page.put(status.phrase());
}

// A line that is told or not: two of the lines go by one flag.
fn put_if(page: &mut Writer, told: bool, line: &[u8])
    ensures { Wrote page.old (if told then line.now else []) page.new }
{
    if told {
        page.put(line);
    }
}

fn put_session(page: &mut Writer, id: Option<SessionId>)
    ensures wrote { Wrote page.old (ended (id_lines id)) page.new }
    ensures known { KnownId id }
{
    if let Some(id) = id {
        page.put(b"BITS-Session-Id: ");
        page.put_id(id);
        page.put(LINE_END);
    }
}

fn put_address(page: &mut Writer, address: &[u8])
    ensures { Wrote page.old (ended (address_lines address.now)) page.new }
{
    if !address.is_empty() {
        page.put(b"BITS-Reply-URL: ");
        page.put(address);
        page.put(LINE_END);
    }
}

fn put_found(page: &mut Writer, found: Option<&Progress>)
    ensures wrote { Wrote page.old (ended (found_lines (option_copied found.entry))) page.new }
    ensures known { KnownReceived (received_of (option_copied found.entry)) × IsAddress (reply_of (option_copied found.entry)) }
{
    if let Some(progress) = found {
        page.put(b"BITS-Received-Content-Range: ");
        page.put_decimal(progress.received);
        page.put(LINE_END);
        put_address(page, progress.stage.reply());
    }
}

fn put_refusal(page: &mut Writer, refusal: Option<Refusal>)
    ensures wrote { Wrote page.old (ended (error_lines refusal)) page.new }
    ensures known { KnownRefusal refusal }
{
    if let Some(refusal) = refusal {
        page.put(b"BITS-Error: 0x");
        page.put_hex(8, u64::from(refusal.code));
        page.put(b"\r\nBITS-Error-Context: 0x");
        page.put_hex(1, u64::from(refusal.context.number()));
        page.put(LINE_END);
    }
}

impl Lines<'_> {
    // Every line in its order, and the blank line.
    pub fn put(&self, page: &mut Writer)
        ensures wrote { Wrote page.old (ack_text (told_by self.now)) page.new }
        ensures known { Tellable (told_by self.now) }
    {
        put_status(page, status_of(self.refusal));
        page.put(COMMON_LINES);
        put_if(page, self.opened, PROTOCOL_LINE);
        put_session(page, self.id);
        put_if(page, self.opened, ENCODING_LINE);
        put_found(page, self.found);
        put_refusal(page, self.refusal);
        page.put(BLANK_LINE);
    }
}
