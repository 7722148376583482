//! What the calls of a device answered, which clauses alone read.
ghost use Rattle.std.specs.Prelude.{◌≡◌, List, [], ◌∷◌, ◌++◌};
ghost use Rattle.std.specs.Borrow.{ftrue};
ghost use Rattle.std.specs.Io.{ReadsAtMost};
ghost use Rattle.alpha_io.specs.History.{Reply, Put, piece_reply, keep_reply, take_reply, replies_code, noted};

use crate::Failed;
use std::marker::{Model, PhantomData};

/// Each reply so far. It takes no memory, and its methods do nothing when they run. What a clause says
/// of it binds whoever is generic over the device's trait; that a device notes what the system answered
/// is to be read in its calls.
#[derive(Drop)]
pub struct History {
    marker: PhantomData<u8>,
    pub ghost replies: { List Reply } by { replies_code },
}

impl Model for History {
    ghost also_owns = { λ _. ftrue };
}

impl History {
    pub(crate) fn new() -> History
        ensures { result.replies ≡ [] }
    {
        History {
            marker: PhantomData,
        }
    }

    /// Notes what a call of `piece` of a shelf answered, which filled the buffer.
    pub(crate) fn note_piece(
        &mut self,
        name: &str,
        at: u64,
        answer: Result<usize, Failed>,
        buf: &[u8],
    )
        requires { ReadsAtMost answer buf.now }
        ensures { self.new.replies ≡ self.old.replies ++ piece_reply name.now at answer buf.now ∷ [] }
    {
        match answer {
            Ok(count) => self.note(&[0, at, 1], name.as_bytes(), &buf[..count]),
            Err(_) => self.note(&[0, at, 0], name.as_bytes(), &[]),
        }
    }

    /// Notes what a call of `keep` of a shelf answered.
    pub(crate) fn note_keep(&mut self, name: &str, bytes: &[u8], answer: Result<(), Failed>)
        ensures { self.new.replies ≡ self.old.replies ++ keep_reply name.now bytes.now answer ∷ [] }
    {
        match answer {
            Ok(()) => self.note(&[1, 0, 1], name.as_bytes(), bytes),
            Err(_) => self.note(&[1, 0, 0], name.as_bytes(), bytes),
        }
    }

    /// Notes the bytes that a sink took by a call of `put`.
    pub(crate) fn note_put(&mut self, bytes: &[u8])
        ensures { self.new.replies ≡ self.old.replies ++ Put bytes.now ∷ [] }
    {
        self.note(&[2, 0, 1], &[], bytes);
    }

    /// Notes what a call of `take` of a source answered, which filled the buffer.
    pub(crate) fn note_take(&mut self, answer: Result<usize, Failed>, buf: &[u8])
        requires { ReadsAtMost answer buf.now }
        ensures { self.new.replies ≡ self.old.replies ++ take_reply answer buf.now ∷ [] }
    {
        let asked = buf.len() as u64;
        match answer {
            Ok(count) => self.note(&[3, asked, 1], &[], &buf[..count]),
            Err(_) => self.note(&[3, asked, 0], &[], &[]),
        }
    }

    // The one place where `replies` grow, by what plain values spell (`noted`): a body sets no ghost field, so the
    // proof of this one was written by hand. The methods above give the values their names.
    fn note(&mut self, _numbers: &[u64], _name: &[u8], _bytes: &[u8])
        ensures { self.new.replies ≡ self.old.replies ++ noted _numbers.now _name.now _bytes.now ∷ [] }
    {}
}
