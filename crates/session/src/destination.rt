// The name that a session's bundle will be published under, held whole so that nothing is borrowed or allocated.
use inline_bytes::InlineBytes;

// The most bytes of a destination.
pub const MOST: usize = 128;

#[derive(Clone, Copy)]
pub struct Destination {
    pub(crate) bytes: InlineBytes<MOST>,
}
