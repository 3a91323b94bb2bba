// What a laptop sends, and what an account says of it.
use laptop::{Named, cancel, close, create, fragment, ping};
use std::alloc::{AllocError, Global};
use std::fmt;

// The site's number, in every id.
pub const SITE: u64 = 4;

// One upload: its path and its session's serial.
#[derive(Clone, Copy)]
pub struct Upload<'a> {
    pub path: &'a str,
    pub serial: u64,
}

impl<'a> Upload<'a> {
    // The text of its session's id.
    fn id(self, heap: Global) -> Result<String, AllocError> {
        let serial = self.serial;
        format!(in heap; "{{00000000-0000-{SITE:04x}-0000-{serial:012x}}}")
    }

    fn named(self, id: &'a str) -> Named<'a> {
        Named {
            path: self.path,
            id,
        }
    }
}

// A value and no closure: each request is printed as well as sent.
#[derive(Clone, Copy)]
pub enum Request<'a> {
    Create(Upload<'a>),
    // the range, the bytes announced, and the body, which may be shorter
    Fragment(Upload<'a>, &'a str, u64, &'a str),
    Close(Upload<'a>),
    Cancel(Upload<'a>),
    Ping,
    // any other text, and what it is
    Text(&'a str, &'a str),
}

// What a line of the account says was sent.
impl fmt::Display for Request<'_> {
    fn fmt<W: fmt::Write>(&self, f: &mut fmt::Formatter<W>) -> fmt::Result {
        match *self {
            Request::Create(upload) => write!(f, "CREATE-SESSION {}", upload.path),
            Request::Fragment(upload, range, announced, body) => write!(
                f,
                "FRAGMENT {range} of session {}, {} of {announced} bytes came",
                upload.serial,
                body.len()
            ),
            Request::Close(upload) => write!(f, "CLOSE-SESSION {}", upload.serial),
            Request::Cancel(upload) => write!(f, "CANCEL-SESSION {}", upload.serial),
            Request::Ping => write!(f, "PING"),
            Request::Text(what, _) => write!(f, "{what}"),
        }
    }
}

impl Request<'_> {
    // The bytes that come over the line.
    pub(crate) fn text(self, heap: Global) -> Result<String, AllocError> {
        match self {
            Request::Create(upload) => create(heap, upload.path),
            Request::Fragment(upload, range, announced, body) => {
                let id = upload.id(heap)?;
                let announced = format!(in heap; "{announced}")?;
                fragment(
                    heap,
                    upload.named(id.as_str()),
                    range,
                    announced.as_str(),
                    body,
                )
            }
            Request::Close(upload) => close(heap, upload.named(upload.id(heap)?.as_str())),
            Request::Cancel(upload) => cancel(heap, upload.named(upload.id(heap)?.as_str())),
            Request::Ping => ping(heap, "/", ""),
            Request::Text(_, text) => String::from_str(heap, text),
        }
    }
}
