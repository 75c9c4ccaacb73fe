// A customer's book, and examples of books as tests. Expected values are worked out by hand.
#![tactic(auto)]

pub mod checkpoint;

#[cfg(test)]
mod tests {
    use crate::checkpoint::Checkpoint;
    use basics::Basics;
    use books::Book;
    use books::faults::Numbered;
    use books::joined::{EitherFault, join};
    use net::{Draft, Look, Net};
    use samples::{number, ways};
    use std::test::Fail;
    use stream::read;

    // The number of the refusal of a step by the customer's book joined with the first house book, if it is refused.
    fn refused(net: &mut Net<'_>, step: &[u8]) -> Option<u8> {
        number(join(Checkpoint, Basics).take(net, step))
    }

    #[test]
    fn refusals_change_nothing(rt: HostRuntime) -> Result<(), Fail> {
        let mut sheet = vec![in rt.alloc(); 7u32; 12_352]?;
        let mut draft = Draft::start(&mut sheet);
        assert!(rt; read(&mut draft, &ways(1)).is_ok());
        let mut net = draft.finish();
        let bytes = [
            refused(&mut net, &[]),
            refused(&mut net, &[0x7f]),
            refused(&mut net, &[0x20, 1]),
            refused(&mut net, &[0x20, 0, 1, 2]),
            refused(&mut net, &[0x80, 0, 0]),
            refused(&mut net, &[0x80, 9, 0, 0]),
            refused(&mut net, &[0x80, 0, 0, 3]),
        ];
        assert_eq!(rt;
            bytes,
            [
                Some(2),
                Some(3),
                Some(2),
                Some(4),
                Some(2),
                Some(100),
                Some(101)
            ]
        );
        let steps = [
            refused(&mut net, &[0x25, 0]),
            refused(&mut net, &[0x20, 9, 0]),
            refused(&mut net, &[0x24, 0, 9]),
            refused(&mut net, &[0x20, 1, 1]),
            refused(&mut net, &[0x21, 2, 0, 0, 0]),
            refused(&mut net, &[0x26, 2]),
            refused(&mut net, &[0x26, 0]),
            refused(&mut net, &[0x24, 0, 0]),
        ];
        assert_eq!(rt;
            steps,
            [
                Some(13),
                Some(8),
                Some(9),
                Some(14),
                Some(15),
                Some(16),
                Some(17),
                Some(18)
            ]
        );
        let looks = [
            net.look(Look::Transitions),
            net.look(Look::Mark(0)),
            net.look(Look::Put(3, 2)),
        ];
        assert_eq!(rt; looks, [Ok(4), Ok(2), Ok(1)]);
        Ok(())
    }

    #[test]
    fn steps_of_both_books(rt: HostRuntime) -> Result<(), Fail> {
        let mut sheet = vec![in rt.alloc(); 7u32; 12_352]?;
        let mut draft = Draft::start(&mut sheet);
        assert!(rt; read(&mut draft, &ways(1)).is_ok());
        let mut net = draft.finish();
        let taken = [
            refused(&mut net, &[0x80, 0, 0, 2]),
            refused(&mut net, &[0x21, 2, 0, 0, 2]),
        ];
        assert_eq!(rt; taken, [None, None]);
        assert_eq!(rt; net.look(Look::Put(2, 2)), Ok(1));
        let composed = [
            refused(&mut net, &[0x22, 2, 0, 1]),
            refused(&mut net, &[0x22, 2, 0, 1]),
        ];
        assert_eq!(rt; composed, [None, Some(8)]);
        let looks = [
            net.look(Look::Transitions),
            net.look(Look::Take(0, 0)),
            net.look(Look::Put(0, 1)),
            net.look(Look::Take(1, 1)),
            net.look(Look::Put(1, 2)),
            net.look(Look::Stands(2)),
        ];
        assert_eq!(rt; looks, [Ok(2), Ok(1), Ok(1), Ok(1), Ok(1), Ok(1)]);
        Ok(())
    }

    #[test]
    fn which_book_refuses(rt: HostRuntime) -> Result<(), Fail> {
        let mut sheet = vec![in rt.alloc(); 7u32; 12_351]?;
        let mut net = Draft::start(&mut sheet).finish();
        match join(Checkpoint, Basics).take(&mut net, &[0x80, 0, 0, 0]) {
            Err(EitherFault::First(fault)) => assert_eq!(rt; fault.number(), 1),
            _ => return Err(Fail::new("the customer's book refuses the sheet")),
        }
        match join(Checkpoint, Basics).take(&mut net, &[0x7f]) {
            Err(EitherFault::Second(fault)) => assert_eq!(rt; fault.number(), 1),
            _ => return Err(Fail::new("the first house book refuses the sheet")),
        }
        assert_eq!(rt; net.sheet.len(), 12_351);
        Ok(())
    }
}
