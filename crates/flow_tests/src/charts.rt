//! Charts, up to the largest flows: a contract cannot say when memory is wanting, so a run shows that it is not.

#[cfg(test)]
mod tests {
    use chart::{Tally, chart, count_line, tally};
    use flow::{Flow, SeatRow, TableFlow};
    use std::test::Fail;

    #[test]
    fn label_without_a_name(rt: HostRuntime) -> Result<(), Fail> {
        let mut flow = TableFlow::fresh();
        assert!(rt; flow.fill(&[0x8000_0006], &[0], &[0], &[0, 1]).is_err());
        assert!(rt; flow.fill(&[0x8000_0006], &[1], &[0, 0], &[0, 2]).is_ok());
        let text = chart(rt.alloc(), &flow, &["free", "held"])?;
        assert_eq!(rt; text.as_str(), "0 start held 2 31 -> 0 0\n");
        Ok(())
    }

    #[test]
    fn six_seats(rt: HostRuntime) -> Result<(), Fail> {
        let row = SeatRow::new(6)?;
        let text = chart(rt.alloc(), &row, &["free", "held", "sold"])?;
        assert_eq!(rt; text.as_str().lines().count(), 729);
        assert_eq!(rt; text.as_str().lines().last(), Some("728 sold -> 728"));
        Ok(())
    }

    #[test]
    fn counts_of_six_seats(rt: HostRuntime) -> Result<(), Fail> {
        // Each of six seats is free or held in two thirds of the states, and changes in 1 or 2 ways: 6 * 3 * 243.
        // The state with all sold has itself.
        let counts = tally(&SeatRow::new(6)?);
        assert_eq!(rt;
            counts,
            Tally {
                flows: 1,
                states: 729,
                starts: 1,
                moves: 4375,
            }
        );
        let words = counts.to_string(rt.alloc())?;
        assert_eq!(rt; words.as_str(), "1 flows, 729 states, 1 starts, 4375 moves");
        let line = count_line(rt.alloc(), counts)?;
        assert_eq!(rt;
            line.as_str(),
            "1 flows, 729 states, 1 starts, 4375 moves\n"
        );
        Ok(())
    }

    #[test]
    fn most_states_and_moves(rt: HostRuntime) -> Result<(), Fail> {
        let heap = rt.alloc();
        let labels = vec![in heap; u32::MAX; 1024]?;
        let starts = vec![in heap; 1u8; 1024]?;
        let moves = vec![in heap; 1023u16; 65536]?;
        // A `for`: in a chain, that the product fits stays open.
        let mut bounds = Vec::new(heap);
        for s in 0..1025u32 {
            bounds.push(s * 64)?;
        }
        let mut flow = TableFlow::fresh();
        assert!(rt; flow.fill(&labels, &starts, &moves, &bounds).is_ok());
        assert_eq!(rt;
            tally(&flow),
            Tally {
                flows: 1,
                states: 1024,
                starts: 1024,
                moves: 65536,
            }
        );
        assert_eq!(rt;
            chart(heap, &flow, &["free"])?.as_str().lines().count(),
            1024
        );
        Ok(())
    }
}
