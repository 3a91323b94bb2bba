// Made from bytes that pass, and read back.
ghost use Rattle.std.specs.Prelude.{◌≡◌, []};
ghost use Rattle.std.specs.Option.{SomeIff, option_map};
ghost use Rattle.reply.specs.Address.{bytes_of};
ghost use Rattle.reply.specs.Visible.{are_visible, IsAddress};

use super::ReplyAddress;
use inline_bytes::InlineBytes;

fn are_visible(s: &[u8]) -> bool
    ensures { result ≡ are_visible s.now }
{
    s.iter().all(|b| b.is_ascii_graphic())
}

impl ReplyAddress {
    // The address of these bytes, if they are one.
    pub fn new(s: &[u8]) -> Option<Self>
        ensures { SomeIff (option_map bytes_of result) (IsAddress s.now) s.now }
    {
        let bytes = InlineBytes::new(s)?;
        if are_visible(s) {
            Some(ReplyAddress { bytes })
        } else {
            None
        }
    }

    // The address of no bytes: none is told.
    pub fn empty() -> Self
        ensures { bytes_of result ≡ [] }
    {
        let bytes = InlineBytes::empty();
        ReplyAddress { bytes }
    }

    pub fn as_bytes(&self) -> &[u8]
        ensures value { result.now ≡ bytes_of self.now }
        ensures address { IsAddress result.now }
    {
        self.bytes.as_slice()
    }
}
