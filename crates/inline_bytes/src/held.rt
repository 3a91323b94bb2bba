// At most `N` bytes. The library's `ArrayVec` is not `Copy`, and its clone can fail.
ghost use Rattle.std.specs.Prelude.{◌≡◌, ◌≤◌, length};

#[derive(Clone, Copy)]
pub struct InlineBytes<const N: usize> {
    pub(crate) all: [u8; N],
    pub(crate) len: usize,
    ghost short: { len ≤ N },
    ghost full: { length all ≡ N },
}
