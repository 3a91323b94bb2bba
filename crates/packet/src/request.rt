// What a request that was read comes to.
ghost use Rattle.std.specs.Prelude.{◌≤◌, length};

use crate::judging::Action;

// A request that was read. It borrows from the input.
#[derive(Clone, Copy)]
pub struct Packet<'a> {
    pub path: &'a [u8],
    pub action: Action,
    // the bytes of the head, its empty line among them
    pub head_size: usize,
    // the bytes of the body that were announced
    pub content_length: u64,
    // those that came
    pub body: &'a [u8],
    pub ghost present: { length body.now ≤ content_length },
    pub ghost short: { length path.now ≤ 128 },
}
