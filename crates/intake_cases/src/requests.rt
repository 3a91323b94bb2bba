// Requests as they are sent.
use laptop::Named;
use std::alloc::{AllocError, Global};

// The path of every request but creations that want another.
pub const PATH: &str = "/scripts/a.zip";

// The session of every request that names one.
const FIRST: Named<'static> = Named {
    path: PATH,
    id: "{00000000-0000-0001-0000-000000000001}",
};

// The bytes of a fragment, and of how many in all.
#[derive(Clone, Copy)]
pub struct Part {
    pub first: usize,
    // the bytes announced, and how many of them are sent
    pub announced: usize,
    pub sent: usize,
    pub total: usize,
}

// A ping with one field more whose value has `size` bytes.
pub(crate) fn ping(heap: Global, size: usize) -> Result<Vec<u8>, AllocError> {
    let value = "v".repeat(heap, size)?;
    let note = format!(in heap; "Note: {value}\r\n")?;
    Ok(laptop::ping(heap, "/a", note.as_str())?.into_bytes())
}

pub(crate) fn create(heap: Global, path: &str) -> Result<Vec<u8>, AllocError> {
    Ok(laptop::create(heap, path)?.into_bytes())
}

// A fragment of the first session: letters in turn.
pub(crate) fn fragment(heap: Global, part: Part) -> Result<Vec<u8>, AllocError> {
    let Part {
        first,
        announced,
        sent,
        total,
    } = part;
    let last = first.wrapping_add(announced).wrapping_sub(1);
    let range = format!(in heap; "{first}-{last}/{total}")?;
    let size = format!(in heap; "{announced}")?;
    let head = laptop::fragment(heap, FIRST, range.as_str(), size.as_str(), "")?;
    let mut bytes = head.into_bytes();
    bytes.extend((b'a'..=b'z').cycle().take(sent))?;
    Ok(bytes)
}

pub(crate) fn close(heap: Global) -> Result<Vec<u8>, AllocError> {
    Ok(laptop::close(heap, FIRST)?.into_bytes())
}
