// What is to be told of a call: its kind, and of a fragment and an approver's answer the session, if it was found.
ghost use Rattle.std.specs.Prelude.{◌≡◌};
ghost use Rattle.reply.specs.Visible.{IsAddress};
ghost use Rattle.ack.specs.Told.{address_of, is_away, is_receiving};

use ids::SessionId;
use reply::ReplyAddress;

// A session's state after the call. Only one that is ready has a reply address.
#[derive(Clone, Copy)]
pub enum Stage {
    Receiving,
    AtApprover,
    Ready(ReplyAddress),
}

impl Stage {
    pub fn is_receiving(&self) -> bool
        ensures { result ≡ is_receiving self.now }
    {
        matches!(self, Stage::Receiving)
    }

    pub fn is_away(&self) -> bool
        ensures { result ≡ is_away self.now }
    {
        matches!(self, Stage::AtApprover)
    }

    // The reply address, and no bytes while there is none.
    pub(crate) fn reply(&self) -> &[u8]
        ensures value { result.now ≡ address_of self.now }
        ensures address { IsAddress result.now }
    {
        match self {
            Stage::Ready(address) => address.as_bytes(),
            Stage::Receiving | Stage::AtApprover => &[],
        }
    }
}

// How far a session has come after the call.
#[derive(Clone, Copy)]
pub struct Progress {
    pub received: u64,
    pub stage: Stage,
}

// The id of a creation is the one that the new session gets.
#[derive(Clone, Copy)]
pub enum Call {
    Unread,
    Ping,
    Create(SessionId),
    Fragment(SessionId, Option<Progress>),
    Close(SessionId),
    Cancel(SessionId),
    Answer(SessionId, Option<Progress>),
}
