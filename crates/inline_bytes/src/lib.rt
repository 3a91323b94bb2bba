// Bytes held whole in a value, so that nothing is borrowed or allocated.
#![tactic(auto)]

ghost use Rattle.std.specs.Prelude.{◌≡◌, ℕ, ◌<◌, ◌≤◌, [], length, MatchOption};
ghost use Rattle.inline_bytes.specs.Contents.{contents};

mod held;

pub use held::InlineBytes;

impl<const N: usize> InlineBytes<N> {
    // These bytes, if they are at most `N`.
    pub fn new(bytes: &[u8]) -> Option<Self>
        ensures { MatchOption result (N < length bytes.now) (λ held. contents held ≡ bytes.now) }
    {
        let len = bytes.len();
        if len > N {
            return None;
        }
        let mut all = [0; N];
        all[..len].copy_from_slice(bytes);
        Some(InlineBytes { all, len })
    }

    // No bytes.
    pub fn empty() -> Self
        ensures { contents result ≡ [] }
    {
        InlineBytes {
            all: [0; N],
            len: 0,
        }
    }

    pub fn as_slice(&self) -> &[u8]
        ensures value { result.now ≡ contents self.now }
        ensures short { length result.now ≤ N }
    {
        &self.all[..self.len]
    }
}
