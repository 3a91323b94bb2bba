// A destination made from a path, and read back.
ghost use Rattle.std.specs.Prelude.{◌≡◌, ◌<◌, length, MatchOption};
ghost use Rattle.session.specs.Sessions.{path_of};

use crate::destination::Destination;
use inline_bytes::InlineBytes;

impl Destination {
    // The destination of these bytes, if they are at most 128.
    pub fn new(path: &[u8]) -> Option<Destination>
        ensures { MatchOption result (128 < length path.now) (λ d. path_of d ≡ path.now) }
    {
        let bytes = InlineBytes::new(path)?;
        Some(Destination { bytes })
    }

    pub fn as_bytes(&self) -> &[u8]
        ensures value { result.now ≡ path_of self.now }
    {
        self.bytes.as_slice()
    }
}
