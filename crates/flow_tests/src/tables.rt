//! Table flows: what they answer, and when filling refuses.

#[cfg(test)]
mod tests {
    use flow::{FillFault, Flow, TableFlow};
    use std::alloc::{AllocError, Global};
    use std::test::Fail;

    // The ticket flow: 0 free and a start, 1 held (label 0), 2 sold (label 1).
    const LABELS: [u32; 3] = [0, 1, 2];

    const STARTS: [u8; 3] = [1, 0, 0];

    const MOVES: [u16; 4] = [1, 0, 2, 2];

    const BOUNDS: [u32; 4] = [0, 1, 3, 4];

    // The number and the place of the refusal, or none.
    fn refusal<'a>(
        labels: &'a [u32],
        starts: &'a [u8],
        moves: &'a [u16],
        bounds: &'a [u32],
    ) -> Option<(u16, usize)> {
        TableFlow::fresh()
            .fill(labels, starts, moves, bounds)
            .err()
            .map(|fault| (fault.number(), fault.place()))
    }

    #[test]
    fn fresh(rt: HostRuntime) {
        let flow = TableFlow::fresh();
        assert_eq!(rt; flow.count(), 1);
        assert_eq!(rt; flow.degree(0), 1);
        assert_eq!(rt; flow.next(0, 0), 0);
        assert!(rt; flow.is_start(0));
        for l in 0..32 {
            assert!(rt; !flow.carries(0, l));
        }
    }

    #[test]
    fn ticket(rt: HostRuntime) {
        let mut flow = TableFlow::fresh();
        assert_eq!(rt; flow.fill(&LABELS, &STARTS, &MOVES, &BOUNDS), Ok(()));
        assert_eq!(rt; flow.count(), 3);
        assert_eq!(rt; (flow.degree(0), flow.degree(1), flow.degree(2)), (1, 2, 1));
        assert_eq!(rt;
            (
                flow.next(0, 0),
                flow.next(1, 0),
                flow.next(1, 1),
                flow.next(2, 0),
            ),
            (1, 0, 2, 2)
        );
        assert_eq!(rt;
            (flow.is_start(0), flow.is_start(1), flow.is_start(2)),
            (true, false, false)
        );
        assert_eq!(rt;
            (flow.carries(0, 0), flow.carries(1, 0), flow.carries(2, 0)),
            (false, true, false)
        );
        assert_eq!(rt;
            (flow.carries(0, 1), flow.carries(1, 1), flow.carries(2, 1)),
            (false, false, true)
        );
    }

    #[test]
    fn made_of_tables(rt: HostRuntime) -> Result<(), Fail> {
        let flow = TableFlow::new(&LABELS, &STARTS, &MOVES, &BOUNDS)?;
        assert_eq!(rt;
            (flow.count(), flow.next(1, 1), flow.carries(1, 0)),
            (3, 2, true)
        );
        assert_eq!(rt;
            TableFlow::new(&[0], &[0], &[0], &[0, 1]).err(),
            Some(FillFault::NoStart)
        );
        Ok(())
    }

    #[test]
    fn beyond_the_range(rt: HostRuntime) {
        let mut flow = TableFlow::fresh();
        assert_eq!(rt;
            flow.fill(&[u32::MAX, u32::MAX], &[1, 1], &[1, 1], &[0, 1, 2]),
            Ok(())
        );
        assert_eq!(rt; (flow.degree(2), flow.degree(u16::MAX)), (0, 0));
        assert_eq!(rt;
            (
                flow.next(0, 1),
                flow.next(2, 0),
                flow.next(u16::MAX, u16::MAX),
            ),
            (0, 0, 0)
        );
        assert_eq!(rt; (flow.is_start(1), flow.is_start(2)), (true, false));
        assert_eq!(rt;
            (flow.carries(1, 31), flow.carries(1, 32), flow.carries(2, 0)),
            (true, false, false)
        );
    }

    #[test]
    fn sizes_refused(rt: HostRuntime) {
        assert_eq!(rt; refusal(&[], &[], &[], &[0]), Some((11, 0)));
        assert_eq!(rt; refusal(&LABELS, &[1, 0], &MOVES, &BOUNDS), Some((11, 0)));
        assert_eq!(rt;
            refusal(&LABELS, &STARTS, &MOVES, &[0, 1, 4]),
            Some((11, 0))
        );
    }

    #[test]
    fn bounds_refused(rt: HostRuntime) {
        assert_eq!(rt;
            refusal(&LABELS, &STARTS, &MOVES, &[1, 1, 3, 4]),
            Some((12, 0)),
            "not from 0"
        );
        assert_eq!(rt;
            refusal(&[0, 0], &[1, 0], &MOVES, &[0, 2, 1]),
            Some((12, 1)),
            "falling"
        );
        assert_eq!(rt;
            refusal(&LABELS, &STARTS, &MOVES, &[0, 1, 66, 0]),
            Some((12, 1)),
            "65 apart, then falling"
        );
        assert_eq!(rt;
            refusal(&LABELS, &STARTS, &MOVES, &[0, 1, 3, 3]),
            Some((12, 3)),
            "not at the count of moves"
        );
    }

    #[test]
    fn moves_refused(rt: HostRuntime) {
        assert_eq!(rt;
            refusal(&LABELS, &STARTS, &MOVES, &[0, 1, 1, 4]),
            Some((13, 1))
        );
        assert_eq!(rt;
            refusal(&LABELS, &STARTS, &[1, 0, 3, 4], &BOUNDS),
            Some((14, 2))
        );
    }

    #[test]
    fn no_start_refused(rt: HostRuntime) {
        assert_eq!(rt;
            refusal(&LABELS, &[0, 0, 0], &MOVES, &BOUNDS),
            Some((15, 0))
        );
    }

    // Each table has every fault from its own on: the lowest number is given.
    #[test]
    fn lowest_number_first(rt: HostRuntime) {
        assert_eq!(rt;
            refusal(&LABELS, &[0, 0], &[9, 9], &[1, 0, 0]),
            Some((11, 0))
        );
        assert_eq!(rt;
            refusal(&LABELS, &[0, 0, 0], &[9, 9], &[1, 0, 0, 0]),
            Some((12, 0))
        );
        assert_eq!(rt;
            refusal(&LABELS, &[0, 0, 0], &[9, 9], &[0, 1, 1, 2]),
            Some((13, 1))
        );
        assert_eq!(rt;
            refusal(&LABELS, &[0, 0, 0], &[2, 9, 9], &[0, 1, 2, 3]),
            Some((14, 1))
        );
    }

    #[test]
    fn refused_stays(rt: HostRuntime) {
        let mut flow = TableFlow::fresh();
        assert_eq!(rt; flow.fill(&LABELS, &STARTS, &MOVES, &BOUNDS), Ok(()));
        assert_eq!(rt;
            flow.fill(&[0], &[0], &[0], &[0, 1]),
            Err(FillFault::NoStart)
        );
        assert_eq!(rt;
            (flow.count(), flow.next(1, 1), flow.is_start(0)),
            (3, 2, true)
        );
    }

    // The bounds of n states with one move each.
    fn single(heap: Global, n: u32) -> Result<Vec<u32>, AllocError> {
        (0..=n).collect(heap)
    }

    // What filling n states refuses, each with one move to state 0.
    fn states(heap: Global, n: usize) -> Result<Option<(u16, usize)>, AllocError> {
        let labels = vec![in heap; 0u32; n]?;
        let starts = vec![in heap; 1u8; n]?;
        let moves = vec![in heap; 0u16; n]?;
        let bounds = single(heap, (n & 0xffff) as u32)?;
        Ok(refusal(&labels, &starts, &moves, &bounds))
    }

    #[test]
    fn count_of_states(rt: HostRuntime) -> Result<(), Fail> {
        assert_eq!(rt; states(rt.alloc(), 0)?, Some((11, 0)));
        assert_eq!(rt; states(rt.alloc(), 1)?, None);
        assert_eq!(rt; states(rt.alloc(), 1024)?, None);
        assert_eq!(rt; states(rt.alloc(), 1025)?, Some((11, 0)));
        Ok(())
    }

    // What filling one state with k moves to itself refuses.
    fn moves(heap: Global, k: u16) -> Result<Option<(u16, usize)>, AllocError> {
        let moves = vec![in heap; 0u16; k as usize]?;
        Ok(refusal(&[0], &[1], &moves, &[0, k as u32]))
    }

    #[test]
    fn count_of_moves(rt: HostRuntime) -> Result<(), Fail> {
        assert_eq!(rt; moves(rt.alloc(), 0)?, Some((13, 0)));
        assert_eq!(rt; moves(rt.alloc(), 1)?, None);
        assert_eq!(rt; moves(rt.alloc(), 64)?, None);
        assert_eq!(rt; moves(rt.alloc(), 65)?, Some((12, 0)));
        Ok(())
    }
}
