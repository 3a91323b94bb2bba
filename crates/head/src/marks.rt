// Where a head ends.
ghost use Rattle.std.specs.Prelude.{◌≡◌, ◌+◌, ◌≤◌, length, IfSome, IfOk};
ghost use Rattle.head.specs.Marks.{head_mark, mark_from};
ghost use Rattle.head.specs.Heads.{end_of};

use crate::Fault;

// The most bytes that a head may have, its empty line among them.
pub const MOST_HEAD: usize = 8192;

fn find_mark(s: &[u8]) -> Option<usize>
    ensures value { result ≡ mark_from head_mark 0 s.now }
    ensures within { IfSome result (λ n. n + 4 ≤ length s.now) }
{
    // By index, with a skip: windows miss the bar of half the copy's speed (docs/performance.md).
    let mut i = 0usize;
    while i + 3 < s.len() {
        // a byte that no mark has: none begins here or at the next three
        if s[i + 3] > b'\r' {
            i += 4;
            continue;
        }
        if s[i..].starts_with(b"\r\n\r\n") {
            return Some(i);
        }
        i += 1;
    }
    None
}

// Where the first empty line begins, before its two line ends.
pub(crate) fn head_mark(input: &[u8]) -> Result<usize, Fault>
    ensures value { result ≡ end_of input.now }
    ensures within { IfOk result (λ n. n + 4 ≤ length input.now) }
{
    let missing = if input.len() < MOST_HEAD {
        Fault::Unfinished
    } else {
        Fault::Malformed(0)
    };
    find_mark(&input[..input.len().min(MOST_HEAD)]).ok_or(missing)
}
