//! A reply: a status and a text.
ghost use Rattle.std.specs.Prelude.{◌≡◌, ◌≢◌};
ghost use Rattle.replies.specs.Reply.{reply_of};

use std::marker::Model;

/// A status, and the text that is written with it. No reply has status 8 or 9: the program ends with these where writing failed, and
/// where memory ran out.
#[derive(Drop)]
pub struct Reply {
    status: u8,
    text: Vec<u8>,
}

impl Model for Reply {
    ghost use Rattle.std.specs.Prelude.{◌≢◌};
    ghost use Rattle.replies.specs.Reply.{Reply as Answered, reply_of};

    ghost Value = { Answered };

    ghost view = { λ r. reply_of r.status r.text.items };

    ghost invariant = { λ r. (r.status ≢ 8) × (r.status ≢ 9) };
}

impl Reply {
    /// The reply with this status and text.
    pub fn new(status: u8, text: Vec<u8>) -> Reply
        requires written { status ≢ 8 }
        requires made { status ≢ 9 }
        ensures { result ≡ reply_of status text.items }
    {
        Reply { status, text }
    }

    /// The status.
    pub fn status(&self) -> u8
        ensures status { result ≡ self.now.status }
        ensures written { result ≢ 8 }
        ensures made { result ≢ 9 }
    {
        self.status
    }

    /// The text.
    pub fn text(&self) -> &[u8]
        ensures { result.now ≡ self.now.text }
    {
        &self.text
    }
}
