// A run of pages: the first, the last and how many; the links between them stand in the page table.
// Of an empty run only the count is looked at, so its ends are no options.
#[derive(Clone, Copy, Default)]
pub struct Chain {
    pub head: u16,
    pub tail: u16,
    pub count: usize,
}
