// Examples of drafts, looks and readings. Expected values are worked out by hand.
#![tactic(auto)]

#[cfg(test)]
mod tests {
    use net::{Draft, Layer, Look, Net, NetFault, Origin, Position, measure};
    use samples::{RELAY, number, parts, seen};
    use std::test::Fail;
    use stream::{Cause, ReadFault, read};

    // Number, byte and count of a refused reading.
    fn refused(r: Result<usize, ReadFault>) -> Option<(u8, usize, usize)> {
        r.err().map(|fault| parts(fault.told()))
    }

    // Adds as many places as a net may have.
    fn fill_places(draft: &mut Draft<'_>) -> Result<(), NetFault> {
        for _ in 0..64 {
            draft.place(5, 0)?;
        }
        Ok(())
    }

    // Adds as many transitions as a net may have.
    fn fill_transitions(draft: &mut Draft<'_>) -> Result<(), NetFault> {
        for _ in 0..96 {
            draft.transition()?;
        }
        Ok(())
    }

    #[test]
    fn wrong_size(rt: HostRuntime) -> Result<(), Fail> {
        let mut sheet = vec![in rt.alloc(); 7u32; 12_351]?;
        assert_eq!(rt; number(measure(&sheet)), Some(1));
        let mut draft = Draft::start(&mut sheet);
        let calls = [
            number(draft.place(1, 0)),
            number(draft.place(1, 9)),
            number(draft.transition()),
            number(draft.arc_in(300, 300, 0)),
            number(draft.arc_out(0, 0, 1)),
            number(draft.question(4)),
            number(draft.clear()),
        ];
        assert_eq!(rt; calls, [Some(1); 7]);
        let readings = [
            refused(read(&mut draft, &RELAY)),
            refused(read(&mut draft, &[])),
        ];
        assert_eq!(rt; readings, [Some((1, 0, 0)); 2]);
        let net = draft.finish();
        let looks = [
            seen(&net, Look::Transitions),
            seen(&net, Look::Question),
            seen(&net, Look::Stands(0)),
            seen(&net, Look::Put(0, 0)),
        ];
        assert_eq!(rt; looks, [Err(1); 4]);
        let Net { sheet, .. } = net;
        assert!(rt; sheet.len() == 12_351);
        assert_eq!(rt; [sheet[0], sheet[12_350]], [7, 7]);
        Ok(())
    }

    #[test]
    fn refusals_in_order(rt: HostRuntime) -> Result<(), Fail> {
        let mut sheet = vec![in rt.alloc(); 7u32; 12_352]?;
        assert_eq!(rt; number(measure(&sheet)), None);
        let mut draft = Draft::start(&mut sheet);
        let first = [
            number(draft.place(0, 2)),
            number(draft.place(4_294_967_295, 1)),
            number(draft.arc_in(0, 300, 0)),
            number(draft.transition()),
            number(draft.arc_in(300, 0, 1)),
            number(draft.arc_in(0, 1, 0)),
            number(draft.arc_in(0, 300, 0)),
        ];
        assert_eq!(rt;
            first,
            [Some(6), None, Some(8), None, Some(8), Some(9), Some(9)]
        );
        let weights = [
            number(draft.arc_in(0, 0, 0)),
            number(draft.arc_in(0, 0, 65_536)),
            number(draft.arc_in(0, 0, 65_535)),
            number(draft.arc_in(0, 0, 65_536)),
            number(draft.arc_in(0, 0, 1)),
            number(draft.arc_out(0, 0, 3)),
            number(draft.arc_out(0, 0, 3)),
        ];
        assert_eq!(rt;
            weights,
            [Some(10), Some(10), None, Some(10), Some(11), None, Some(11)]
        );
        let questions = [number(draft.question(4)), number(draft.question(3))];
        assert_eq!(rt; questions, [Some(12), None]);
        Ok(())
    }

    #[test]
    fn limits(rt: HostRuntime) -> Result<(), Fail> {
        let mut sheet = vec![in rt.alloc(); 0u32; 12_352]?;
        let mut draft = Draft::start(&mut sheet);
        let calls = [
            number(fill_places(&mut draft)),
            number(draft.place(5, 2)),
            number(fill_transitions(&mut draft)),
            number(draft.transition()),
            number(draft.arc_out(95, 63, 9)),
        ];
        assert_eq!(rt; calls, [None, Some(5), None, Some(7), None]);
        let net = draft.finish();
        let looks = [
            seen(&net, Look::Transitions),
            seen(&net, Look::Put(95, 63)),
            seen(&net, Look::Take(96, 63)),
            seen(&net, Look::Take(95, 64)),
            seen(&net, Look::Mark(63)),
        ];
        assert_eq!(rt; looks, [Ok(96), Ok(9), Err(8), Err(9), Ok(5)]);
        let Net { sheet, .. } = net;
        assert!(rt; sheet.len() == 12_352);
        assert_eq!(rt; sheet[12_351], 9);
        Ok(())
    }

    #[test]
    fn looks(rt: HostRuntime) -> Result<(), Fail> {
        let mut sheet = vec![in rt.alloc(); 7u32; 12_352]?;
        let mut draft = Draft::start(&mut sheet);
        assert!(rt; read(&mut draft, &RELAY).is_ok());
        let net = draft.finish();
        let of_places = [
            seen(&net, Look::Transitions),
            seen(&net, Look::Question),
            seen(&net, Look::Stands(2)),
            seen(&net, Look::Stands(3)),
            seen(&net, Look::Stands(4_000_000_000)),
            seen(&net, Look::Support(1)),
            seen(&net, Look::Support(2)),
            seen(&net, Look::Support(3)),
        ];
        assert_eq!(rt;
            of_places,
            [Ok(2), Ok(1), Ok(1), Ok(0), Ok(0), Ok(0), Ok(1), Err(9)]
        );
        let of_arcs = [
            seen(&net, Look::Mark(0)),
            seen(&net, Look::Take(1, 1)),
            seen(&net, Look::Take(1, 2)),
            seen(&net, Look::Put(1, 2)),
            seen(&net, Look::Put(2, 9)),
        ];
        assert_eq!(rt; of_arcs, [Ok(1), Ok(1), Ok(0), Ok(1), Err(8)]);
        Ok(())
    }

    #[test]
    fn readings(rt: HostRuntime) -> Result<(), Fail> {
        let mut sheet = vec![in rt.alloc(); 7u32; 12_352]?;
        let mut draft = Draft::start(&mut sheet);
        assert_eq!(rt; number(draft.place(1, 1)), None);
        let readings = [
            refused(read(&mut draft, &RELAY[0..41])),
            refused(read(&mut draft, &RELAY[0..40])),
            refused(read(&mut draft, &[0x11, 0x11, 0x12, 1, 0, 0, 1])),
            refused(read(&mut draft, &[0x11, 0x77])),
        ];
        assert_eq!(rt;
            readings,
            [
                Some((2, 40, 9)),
                Some((2, 40, 9)),
                Some((9, 2, 2)),
                Some((3, 1, 1))
            ]
        );
        let net = draft.finish();
        let looks = [seen(&net, Look::Transitions), seen(&net, Look::Stands(0))];
        assert_eq!(rt; looks, [Ok(0), Ok(0)]);
        let Net { sheet, .. } = net;
        assert!(rt; sheet.len() == 12_352);
        assert_eq!(rt; sheet[0], 0);
        Ok(())
    }

    #[test]
    fn layers(rt: HostRuntime) -> Result<(), Fail> {
        let mut sheet = vec![in rt.alloc(); 7u32; 12_352]?;
        let mut draft = Draft::start(&mut sheet);
        assert_eq!(rt;
            read(&mut draft, &[0x10, 0, 0, 0, 0, 2]),
            Err(ReadFault {
                cause: Cause::Net(NetFault::BadFlag),
                origin: Origin {
                    layer: Layer::Net,
                    at: Position { byte: 0, count: 0 },
                },
            },)
        );
        assert_eq!(rt;
            read(&mut draft, &[0x11]),
            Err(ReadFault {
                cause: Cause::Short,
                origin: Origin {
                    layer: Layer::Reader,
                    at: Position { byte: 1, count: 1 },
                },
            },)
        );
        Ok(())
    }
}
