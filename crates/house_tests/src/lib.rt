// Examples of steps judged by the house book. Expected values are worked out by hand.
#![tactic(auto)]

#[cfg(test)]
mod tests {
    use books::Book;
    use books::faults::Numbered;
    use house::{EitherFault, house};
    use net::{Draft, Look, Net};
    use samples::{RELAY, number, seen};
    use std::test::Fail;
    use stream::read;

    // The number of the refusal of a step by the house book, where it is refused.
    fn refused(net: &mut Net<'_>, step: &[u8]) -> Option<u8> {
        number(house().take(net, step))
    }

    // Which of the four books refuses a step, and the number of its refusal.
    fn refuser(net: &mut Net<'_>, step: &[u8]) -> Option<(u8, u8)> {
        match house().take(net, step) {
            Ok(()) => None,
            Err(EitherFault::First(fault)) => Some((1, fault.number())),
            Err(EitherFault::Second(EitherFault::First(fault))) => Some((2, fault.number())),
            Err(EitherFault::Second(EitherFault::Second(EitherFault::First(fault)))) => {
                Some((3, fault.number()))
            }
            Err(EitherFault::Second(EitherFault::Second(EitherFault::Second(fault)))) => {
                Some((4, fault.number()))
            }
        }
    }

    #[test]
    fn sets_of_places(rt: HostRuntime) -> Result<(), Fail> {
        let mut sheet = vec![in rt.alloc(); 7u32; 12_352]?;
        let mut draft = Draft::start(&mut sheet);
        assert!(rt; read(&mut draft, &RELAY).is_ok());
        let mut net = draft.finish();
        let steps = [
            refused(&mut net, &[0x29, 3, 0, 0, 0, 0, 0, 0, 0]),
            refused(&mut net, &[0x29, 8, 0, 0, 0, 0, 0, 0, 0]),
            refused(&mut net, &[0x29, 4, 0, 0, 0, 0, 0, 0, 0]),
            refused(&mut net, &[0x28, 0, 0, 0, 0, 0, 0, 0, 0]),
            refused(&mut net, &[0x28, 2, 0, 0, 0, 0, 0, 0, 0]),
            refused(&mut net, &[0x28, 1, 0, 0, 0, 0, 0, 0, 0]),
            refused(&mut net, &[0x28, 1, 0, 0, 0, 0, 0, 0]),
            refused(&mut net, &[0x29, 7, 0, 0, 0, 0, 0, 0, 0]),
        ];
        assert_eq!(rt;
            steps,
            [
                Some(16),
                Some(9),
                Some(17),
                Some(15),
                Some(17),
                Some(18),
                Some(2),
                None
            ]
        );
        let looks = [seen(&net, Look::Transitions), seen(&net, Look::Mark(0))];
        assert_eq!(rt; looks, [Ok(2), Ok(1)]);
        Ok(())
    }

    #[test]
    fn moved_tokens(rt: HostRuntime) -> Result<(), Fail> {
        let mut sheet = vec![in rt.alloc(); 7u32; 12_352]?;
        let mut draft = Draft::start(&mut sheet);
        assert!(rt; read(&mut draft, &RELAY).is_ok());
        let mut net = draft.finish();
        let steps = [
            refused(&mut net, &[0x2d, 0, 0, 2]),
            refused(&mut net, &[0x2d, 0, 0, 0]),
            refused(&mut net, &[0x2d, 1, 0, 1]),
            refused(&mut net, &[0x2e, 0, 2, 0, 1]),
            refused(&mut net, &[0x2e, 0, 1, 0, 1]),
            refused(&mut net, &[0x2d, 0, 0, 1]),
        ];
        assert_eq!(rt;
            steps,
            [Some(18), Some(15), Some(17), Some(16), Some(17), None]
        );
        let looks = [
            seen(&net, Look::Mark(0)),
            seen(&net, Look::Mark(1)),
            seen(&net, Look::Mark(2)),
            seen(&net, Look::Transitions),
        ];
        assert_eq!(rt; looks, [Ok(0), Ok(1), Ok(0), Ok(2)]);
        Ok(())
    }

    #[test]
    fn agglomerations(rt: HostRuntime) -> Result<(), Fail> {
        let mut sheet = vec![in rt.alloc(); 7u32; 12_352]?;
        let mut draft = Draft::start(&mut sheet);
        assert!(rt; read(&mut draft, &RELAY).is_ok());
        let mut net = draft.finish();
        let steps = [
            refused(&mut net, &[0x2a, 3]),
            refused(&mut net, &[0x2a, 2]),
            refused(&mut net, &[0x2a, 1]),
            refused(&mut net, &[0x2b, 1]),
            refused(&mut net, &[0x2b, 1]),
        ];
        assert_eq!(rt; steps, [Some(9), Some(16), Some(17), None, Some(9)]);
        let looks = [
            seen(&net, Look::Transitions),
            seen(&net, Look::Stands(1)),
            seen(&net, Look::Take(0, 0)),
            seen(&net, Look::Put(0, 2)),
            seen(&net, Look::Mark(0)),
        ];
        assert_eq!(rt; looks, [Ok(1), Ok(0), Ok(1), Ok(1), Ok(1)]);
        Ok(())
    }

    #[test]
    fn which_book_refuses(rt: HostRuntime) -> Result<(), Fail> {
        let mut sheet = vec![in rt.alloc(); 7u32; 12_352]?;
        let mut net = Draft::start(&mut sheet).finish();
        let refusals = [
            refuser(&mut net, &[0x20, 0, 0]),
            refuser(&mut net, &[0x28, 1, 0, 0, 0, 0, 0, 0, 0]),
            refuser(&mut net, &[0x2a, 0]),
            refuser(&mut net, &[0x2d, 0, 0, 1]),
        ];
        assert_eq!(rt;
            refusals,
            [Some((1, 8)), Some((2, 9)), Some((3, 9)), Some((4, 8))]
        );
        Ok(())
    }
}
