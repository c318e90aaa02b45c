//! Rows of seats: their states, moves and labels.

#[cfg(test)]
mod tests {
    use flow::{Flow, SeatRow};
    use std::test::Fail;

    // How many states a row has, or the number of the refusal.
    fn states(seats: u8) -> Result<u16, u16> {
        SeatRow::new(seats)
            .map(|row| row.count())
            .map_err(|fault| fault.number())
    }

    #[test]
    fn one_to_six_seats(rt: HostRuntime) {
        assert_eq!(rt; states(0), Err(16));
        assert_eq!(rt; states(1), Ok(3));
        assert_eq!(rt; states(2), Ok(9));
        assert_eq!(rt; states(6), Ok(729));
        assert_eq!(rt; states(7), Err(16));
        assert_eq!(rt; states(255), Err(16));
    }

    #[test]
    fn moves_of_two_seats(rt: HostRuntime) -> Result<(), Fail> {
        let row = SeatRow::new(2)?;
        assert_eq!(rt; row.degree(4), 4);
        assert_eq!(rt;
            (
                row.next(4, 0),
                row.next(4, 1),
                row.next(4, 2),
                row.next(4, 3),
            ),
            (3, 5, 1, 7)
        );
        assert_eq!(rt; (row.degree(2), row.next(2, 0)), (1, 5));
        assert_eq!(rt; (row.degree(8), row.next(8, 0)), (1, 8));
        assert_eq!(rt; (row.degree(0), row.next(0, 0), row.next(0, 1)), (2, 1, 3));
        Ok(())
    }

    #[test]
    fn labels_of_two_seats(rt: HostRuntime) -> Result<(), Fail> {
        let row = SeatRow::new(2)?;
        assert_eq!(rt;
            (row.carries(0, 0), row.carries(0, 1), row.carries(0, 2)),
            (true, false, false),
            "both free"
        );
        assert_eq!(rt;
            (row.carries(5, 0), row.carries(5, 1), row.carries(5, 2)),
            (false, true, false),
            "sold, held"
        );
        assert_eq!(rt;
            (row.carries(6, 0), row.carries(6, 1), row.carries(6, 2)),
            (true, false, false),
            "free, sold"
        );
        assert_eq!(rt;
            (row.carries(8, 0), row.carries(8, 1), row.carries(8, 2)),
            (false, false, true),
            "both sold"
        );
        Ok(())
    }

    #[test]
    fn start_of_a_row(rt: HostRuntime) -> Result<(), Fail> {
        let row = SeatRow::new(3)?;
        for s in 0..30 {
            assert_eq!(rt; row.is_start(s), s == 0);
        }
        Ok(())
    }

    #[test]
    fn beyond_the_range(rt: HostRuntime) -> Result<(), Fail> {
        let row = SeatRow::new(2)?;
        assert_eq!(rt; (row.degree(9), row.degree(u16::MAX)), (0, 0));
        assert_eq!(rt; (row.next(9, 0), row.next(4, 4), row.next(8, 1)), (0, 0, 0));
        assert_eq!(rt;
            (row.carries(9, 0), row.carries(0, 3), row.carries(0, 32)),
            (false, false, false)
        );
        Ok(())
    }

    // Six held seats: the most next states that a row has.
    #[test]
    fn six_held(rt: HostRuntime) -> Result<(), Fail> {
        let row = SeatRow::new(6)?;
        assert_eq!(rt; row.degree(364), 12);
        assert_eq!(rt; (row.next(364, 0), row.next(364, 1)), (363, 365));
        assert_eq!(rt; (row.next(364, 10), row.next(364, 11)), (121, 607));
        Ok(())
    }
}
