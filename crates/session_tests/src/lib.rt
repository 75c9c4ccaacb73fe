// Examples of sessions over the first house book. Expected values are worked out by hand.
#![tactic(auto)]

#[cfg(test)]
mod tests {
    use basics::{BasicFault, Basics};
    use books::Book;
    use books::faults::BookFault;
    use net::{Draft, Layer, Look, Origin, Position};
    use samples::{WAYS, parts};
    use session::{Cause, Session, SessionFault};
    use std::test::Fail;
    use stream::read;

    // The answer, or number, byte and count of the refusal.
    fn told(r: Result<usize, SessionFault<BasicFault>>) -> Result<usize, (u8, usize, usize)> {
        r.map_err(|fault| parts(fault.told()))
    }

    // The number of a refused proposal.
    fn number(r: Result<(), SessionFault<BasicFault>>) -> Option<u8> {
        r.err().map(|fault| fault.told().number)
    }

    // The value of a look, or the number of its refusal.
    fn seen(session: &Session<'_>, at: Look) -> Result<u32, u8> {
        session.look(at).map_err(|fault| fault.told().number)
    }

    // The numbers of the refusals of five proposals in a row.
    fn refused(session: &mut Session<'_>) -> [Option<u8>; 5] {
        [
            number(session.propose(&Basics, &[])),
            number(session.propose(&Basics, &[0x28, 1])),
            number(session.propose(&Basics, &[0x21, 2, 0, 0])),
            number(session.propose(&Basics, &[0x21, 2, 0, 0, 2, 0])),
            number(session.propose(&Basics, &[0x26, 0])),
        ]
    }

    #[test]
    fn calls_in_a_row(rt: HostRuntime) -> Result<(), Fail> {
        let mut sheet = vec![in rt.alloc(); 7u32; 12_352]?;
        let mut draft = Draft::start(&mut sheet);
        assert!(rt; read(&mut draft, &WAYS).is_ok());
        let mut session = Session::open(draft);
        assert_eq!(rt;
            refused(&mut session),
            [Some(2), Some(3), Some(2), Some(4), Some(17)]
        );
        let empty = told(session.feed(&Basics, &[]));
        let before = seen(&session, Look::Transitions);
        let dropped = number(session.propose(&Basics, &[0x21, 2, 0, 0, 2]));
        let after = seen(&session, Look::Transitions);
        assert_eq!(rt;
            (empty, before, dropped, after),
            (Ok(0), Ok(4), None, Ok(3))
        );
        let stopped = told(session.feed(&Basics, &[0x22, 2, 0, 1, 0x26, 2, 0x20, 0, 1]));
        let left = seen(&session, Look::Transitions);
        let short = told(session.feed(&Basics, &[0x24, 0]));
        assert_eq!(rt;
            (stopped, left, short),
            (Err((16, 4, 1)), Ok(2), Err((2, 0, 0)))
        );
        let looks = [
            seen(&session, Look::Question),
            seen(&session, Look::Put(1, 2)),
            seen(&session, Look::Put(2, 2)),
            seen(&session, Look::Mark(3)),
        ];
        assert_eq!(rt; looks, [Ok(3), Ok(1), Err(8), Err(9)]);
        Ok(())
    }

    #[test]
    fn wrong_size(rt: HostRuntime) -> Result<(), Fail> {
        let mut sheet = vec![in rt.alloc(); 7u32; 12_353]?;
        let mut session = Session::open(Draft::start(&mut sheet));
        let proposals = [
            number(session.propose(&Basics, &[])),
            number(session.propose(&Basics, &[0x26, 0])),
        ];
        assert_eq!(rt; proposals, [Some(1), Some(1)]);
        let feeds = [
            told(session.feed(&Basics, &[])),
            told(session.feed(&Basics, &[0x7f])),
        ];
        assert_eq!(rt; feeds, [Err((1, 0, 0)), Err((1, 0, 0))]);
        assert_eq!(rt; seen(&session, Look::Stands(0)), Err(1));
        let sheet = session.close();
        assert_eq!(rt;
            (sheet.len(), sheet.first(), sheet.last()),
            (12_353, Some(&7), Some(&7))
        );
        Ok(())
    }

    #[test]
    fn layers(rt: HostRuntime) -> Result<(), Fail> {
        let mut sheet = vec![in rt.alloc(); 7u32; 12_352]?;
        let mut draft = Draft::start(&mut sheet);
        assert!(rt; read(&mut draft, &WAYS).is_ok());
        let mut session = Session::open(draft);
        match session.feed(&Basics, &[0x21, 2, 0, 0, 2, 0x7f]) {
            Err(
                SessionFault {
                    cause: Cause::Bytes(_),
                    origin: Origin {
                        layer: Layer::Session,
                        at: Position { byte: 5, count: 1 },
                    },
                },
            ) => {}
            _ => return Err(Fail::new("the session refuses the byte")),
        }
        match session.propose(&Basics, &[0x20, 0, 0]) {
            Err(
                SessionFault {
                    cause: Cause::Book(BookFault::Step(_)),
                    origin: Origin {
                        layer: Layer::Book,
                        at: Position { byte: 0, count: 0 },
                    },
                },
            ) => Ok(()),
            _ => Err(Fail::new("the book refuses the step")),
        }
    }

    #[test]
    fn replay(rt: HostRuntime) -> Result<(), Fail> {
        let mut sheet = vec![in rt.alloc(); 7u32; 12_352]?;
        let mut draft = Draft::start(&mut sheet);
        assert!(rt; read(&mut draft, &WAYS).is_ok());
        let mut session = Session::open(draft);
        let dropped = number(session.propose(&Basics, &[0x21, 2, 0, 0, 2]));
        let refused = number(session.propose(&Basics, &[0x26, 0]));
        let stopped = told(session.feed(&Basics, &[0x22, 2, 0, 1, 0x20, 0, 1]));
        assert_eq!(rt;
            (dropped, refused, stopped),
            (None, Some(17), Err((17, 4, 1)))
        );
        let ended = session.close();
        let mut fresh = vec![in rt.alloc(); 9u32; 12_352]?;
        let mut draft = Draft::start(&mut fresh);
        assert!(rt; read(&mut draft, &WAYS).is_ok());
        let mut session = Session::open(draft);
        assert_eq!(rt;
            told(session.feed(&Basics, &[0x21, 2, 0, 0, 2, 0x22, 2, 0, 1])),
            Ok(2)
        );
        let again = session.close();
        assert_eq!(rt; ended.len(), 12_352);
        assert!(rt; ended[..] == again[..]);
        Ok(())
    }
}
