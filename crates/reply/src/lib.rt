// A reply address: up to 256 bytes, each one visible (0x21 to 0x7E). It is held whole, so that nothing is borrowed or allocated.
#![tactic(auto)]

ghost use Rattle.std.specs.Prelude.{◌≡◌, true};
ghost use Rattle.inline_bytes.specs.Contents.{contents};
ghost use Rattle.reply.specs.Visible.{are_visible};

use inline_bytes::InlineBytes;

mod checks;

// The most bytes that an address has.
pub const MOST: usize = 256;

#[derive(Clone, Copy)]
pub struct ReplyAddress {
    bytes: InlineBytes<MOST>,
    ghost seen: { are_visible (contents bytes) ≡ true },
}
