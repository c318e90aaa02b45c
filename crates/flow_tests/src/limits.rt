//! Code over any flow leans on its limits, behind a pointer too.
ghost use Rattle.std.specs.Prelude.{◌≤◌};

#[cfg(test)]
mod tests {
    use flow::{Flow, SeatRow, TableFlow};
    use std::test::Fail;

    // How many next states `s` has. That they are few is proved from the limits, whatever the kind of flow.
    fn few(flow: &dyn Flow, s: u16) -> u16
        ensures { result ≤ 64 }
    {
        flow.degree(s)
    }

    #[test]
    fn behind_a_pointer(rt: HostRuntime) -> Result<(), Fail> {
        let row = SeatRow::new(2)?;
        assert_eq!(rt; few(&TableFlow::fresh(), 0), 1);
        assert_eq!(rt; few(&row, 4), 4);
        Ok(())
    }
}
