// What a laptop sends: its requests as text.
#![tactic(auto)]

ghost use Rattle.std.specs.Prelude.{◌≡◌, IfOk, codes, string_bytes};
ghost use Rattle.laptop.specs.Requests.{create_text, fragment_text, ping_text, short_text};

use std::alloc::{AllocError, Global};

#[cfg(test)]
mod tests;

// A session as a laptop names it: its path, and its id as text.
#[derive(Clone, Copy)]
pub struct Named<'a> {
    pub path: &'a str,
    pub id: &'a str,
}

// A ping, with more field lines, each with its end.
pub fn ping(heap: Global, path: &str, fields: &str) -> Result<String, AllocError>
    ensures { IfOk result (λ s. string_bytes s ≡ ping_text path.now fields.now) }
{
    format!(in heap;
        "BITS_POST {path} HTTP/1.1\r\nBITS-Packet-Type: PING\r\nContent-Length: 0\r\n{fields}\r\n"
    )
}

pub fn create(heap: Global, path: &str) -> Result<String, AllocError>
    ensures { IfOk result (λ s. string_bytes s ≡ create_text path.now) }
{
    format!(in heap;
        "BITS_POST {path} HTTP/1.1\r\nBITS-Packet-Type: CREATE-SESSION\r\nBITS-Supported-Protocols: {{7df0354d-249b-430f-820d-3d2a9bef4931}}\r\nContent-Length: 0\r\n\r\n"
    )
}

// A message without a body that names its session.
fn short(heap: Global, kind: &str, path: &str, id: &str) -> Result<String, AllocError>
    ensures { IfOk result (λ s. string_bytes s ≡ short_text kind.now path.now id.now) }
{
    format!(in heap;
        "BITS_POST {path} HTTP/1.1\r\nBITS-Packet-Type: {kind}\r\nBITS-Session-Id: {id}\r\nContent-Length: 0\r\n\r\n"
    )
}

pub fn close(heap: Global, named: Named<'_>) -> Result<String, AllocError>
    ensures { IfOk result (λ s. string_bytes s ≡ short_text (codes "CLOSE-SESSION") named.entry.path.now named.entry.id.now) }
{
    short(heap, "CLOSE-SESSION", named.path, named.id)
}

pub fn cancel(heap: Global, named: Named<'_>) -> Result<String, AllocError>
    ensures { IfOk result (λ s. string_bytes s ≡ short_text (codes "CANCEL-SESSION") named.entry.path.now named.entry.id.now) }
{
    short(heap, "CANCEL-SESSION", named.path, named.id)
}

// A fragment: the range and the bytes announced as they are written, and the body, which may be shorter.
pub fn fragment(
    heap: Global,
    named: Named<'_>,
    range: &str,
    announced: &str,
    body: &str,
) -> Result<String, AllocError>
    ensures { IfOk result (λ s. string_bytes s ≡ fragment_text named.entry.path.now named.entry.id.now range.now announced.now body.now) }
{
    let Named { path, id } = named;
    format!(in heap;
        "BITS_POST {path} HTTP/1.1\r\nBITS-Packet-Type: FRAGMENT\r\nBITS-Session-Id: {id}\r\nContent-Range: bytes {range}\r\nContent-Length: {announced}\r\n\r\n{body}"
    )
}
