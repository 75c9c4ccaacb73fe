// A session: a drafted net is opened, reduced by the steps of a book, looked at, and closed.
#![tactic(auto)]

ghost use Rattle.std.specs.Prelude.{◌≡◌, ◌+◌, ◌<◌, true, length, Ok, Err, Result, IfErr};
ghost use Rattle.net.specs.States.{view, sized, Answered};
ghost use Rattle.net.specs.Views.{drafted, Holds, SameSheet};
ghost use Rattle.session.specs.Views.{opened};
ghost use Rattle.session.specs.Faults.{IsBookless};
ghost use Rattle.session.specs.Feeds.{meaning, proposed, stepped, fed_from, fed, looked_at, StepAnswered, FeedAnswered, PlaceWithin};
ghost use Rattle.session.specs.Calls.{Faithful};

mod faults;
mod session;

use books::{Book, byte_at, frame, front};
use faults::by_book;
pub use faults::{BookRefusal, Cause, NoBook, SessionFault};
use net::{Draft, Layer, Look, Net, Position, at_place};
pub use session::Session;

impl<'a> Session<'a> {
    // Opens a session on the net of a draft.
    pub fn open(draft: Draft<'a>) -> Session<'a>
        ensures exact { opened result ≡ drafted draft.entry }
        ensures lent { SameSheet result.net draft.entry.net }
    {
        Session {
            net: draft.finish(),
        }
    }

    // Judges the bytes as exactly one step and takes it, or refuses it and changes nothing.
    pub fn propose<B: Book>(&mut self, book: &B, bytes: &[u8]) -> Result<(), SessionFault<B::Fault>>
        ensures exact { Answered result (opened self.new) (opened self.old) (proposed (meaning B.Book.width_of B.Book.taken) (opened self.old) bytes.now) }
        ensures lent { SameSheet self.new.net self.old.net }
    {
        let at = Position::START;
        at_place(self.net.check_size(), at.origin(Layer::Net))?;
        at_place(
            frame(book.width(byte_at(bytes, 0)), bytes),
            at.origin(Layer::Session),
        )?;
        by_book(book.take(&mut self.net, bytes), at)?;
        Ok(())
    }

    // Takes the step at the front of the bytes, which start at the given byte after count steps, and answers its length.
    fn step<B: Book>(
        &mut self,
        book: &B,
        bytes: &[u8],
        at: Position,
    ) -> Result<usize, SessionFault<B::Fault>>
        requires { sized (opened self.old) ≡ true }
        ensures exact { StepAnswered result (opened self.new) (opened self.old) (stepped (meaning B.Book.width_of B.Book.taken) (opened self.old) bytes.now at.byte at.count) }
        ensures size { sized (opened self.new) ≡ true }
        ensures lent { SameSheet self.new.net self.old.net }
    {
        let length = at_place(
            front(book.width(byte_at(bytes, 0)), bytes),
            at.origin(Layer::Session),
        )?;
        by_book(book.take(&mut self.net, &bytes[..length]), at)?;
        Ok(length)
    }

    // Takes steps in a row until the bytes end or one is refused, and answers the count.
    fn take_steps<B: Book>(
        &mut self,
        book: &B,
        bytes: &[u8],
    ) -> Result<usize, SessionFault<B::Fault>>
        requires { sized (opened self.old) ≡ true }
        ensures exact { FeedAnswered result (opened self.new) (fed_from (meaning B.Book.width_of B.Book.taken) (length bytes.now) (opened self.old) bytes.now 0 0) }
        ensures lent { SameSheet self.new.net self.old.net }
    {
        let mut at = Position::START;
        // Each turn goes on by the length of its step, which no iterator over the bytes knows.
        while at.byte < bytes.len() {
            let used = self.step(book, &bytes[at.byte..], at)?;
            at.byte += used;
            at.count += 1;
        }
        Ok(at.count)
    }

    // Takes steps in a row until the bytes end or one is refused. The answer or the fault counts the steps taken, which stay taken.
    pub fn feed<B: Book>(&mut self, book: &B, bytes: &[u8]) -> Result<usize, SessionFault<B::Fault>>
        ensures exact { FeedAnswered result (opened self.new) (fed (meaning B.Book.width_of B.Book.taken) (opened self.old) bytes.now) }
        ensures within { PlaceWithin result (length bytes.now) }
        ensures faithful { Faithful (meaning B.Book.width_of B.Book.taken) }
        ensures lent { SameSheet self.new.net self.old.net }
    {
        at_place(self.net.check_size(), Position::START.origin(Layer::Net))?;
        self.take_steps(book, bytes)
    }

    // The net that stands, to be read.
    pub fn net(&self) -> &Net<'a>
        ensures { view result.now ≡ opened self.now }
    {
        &self.net
    }

    // One number of the net.
    pub fn look(&self, at: Look) -> Result<u32, SessionFault<NoBook>>
        ensures exact { result ≡ looked_at (opened self.now) at }
        ensures bookless { IfErr result (λ f. IsBookless f.cause) }
    {
        let number = at_place(self.net.look(at), Position::START.origin(Layer::Net))?;
        Ok(number)
    }

    // Ends the session, and gives the sheet back.
    pub fn close(self) -> &'a mut [u32]
        ensures numbers { result.now ≡ (opened self.entry).sheet }
        ensures lent { Holds result self.entry.net }
    {
        let Session { net } = self;
        let sheet = net.sheet;
        sheet
    }
}
