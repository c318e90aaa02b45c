//! Parts by number, with their operands and signs.

#[cfg(test)]
mod tests {
    use rule::{Kind, Operands, Rule, Sign};
    use std::test::Fail;

    // The text with the ticket flow's names.
    fn read(text: &[u8]) -> Option<Rule> {
        Rule::read(&[b"held", b"sold"], text).ok()
    }

    #[test]
    fn fresh(rt: HostRuntime) {
        let rule = Rule::fresh();
        assert_eq!(rt; rule.len(), 1);
        assert!(rt; rule.name(0).is_none());
        assert_eq!(rt; rule.operands(0), Some(Operands::None));
        assert_eq!(rt; rule.sign(0), Some(Sign::Plus));
        assert_eq!(rt; rule.sign(1), None);
    }

    #[test]
    fn arrows_group_to_the_right(rt: HostRuntime) -> Result<(), Fail> {
        let Some(rule) = read(b"held -> sold -> held") else {
            assert!(rt; false);
            return Ok(());
        };
        assert_eq!(rt; rule.len(), 5);
        assert_eq!(rt; rule.operands(3), Some(Operands::Two(1, 2)));
        assert_eq!(rt; rule.operands(4), Some(Operands::Two(0, 3)));
        assert_eq!(rt; rule.operands(2), Some(Operands::None));
        assert_eq!(rt; rule.operands(5), None, "no such part");
        Ok(())
    }

    #[test]
    fn bars_group_to_the_left(rt: HostRuntime) -> Result<(), Fail> {
        let Some(rule) = read(b"held | sold | held & sold") else {
            assert!(rt; false);
            return Ok(());
        };
        assert_eq!(rt; rule.operands(2), Some(Operands::Two(0, 1)));
        assert_eq!(rt; rule.operands(5), Some(Operands::Two(3, 4)));
        assert_eq!(rt; rule.operands(6), Some(Operands::Two(2, 5)));
        Ok(())
    }

    #[test]
    fn labels(rt: HostRuntime) -> Result<(), Fail> {
        let Some(rule) = read(b"paid & sold") else {
            assert!(rt; false);
            return Ok(());
        };
        let (Some(paid), Some(sold)) = (rule.part(0), rule.part(1)) else {
            assert!(rt; false);
            return Ok(());
        };
        assert_eq!(rt; paid.kind, Kind::False);
        assert_eq!(rt; sold.label(), Some(1));
        assert!(rt; paid.label().is_none());
        assert!(rt; rule.part(3).is_none());
        Ok(())
    }

    #[test]
    fn signs(rt: HostRuntime) -> Result<(), Fail> {
        let Some(rule) = read(b"AG (held -> EF sold)") else {
            assert!(rt; false);
            return Ok(());
        };
        assert_eq!(rt; rule.sign(0), Some(Sign::Minus));
        assert_eq!(rt; rule.sign(1), Some(Sign::Plus));
        assert_eq!(rt; rule.sign(2), Some(Sign::Plus));
        assert_eq!(rt; rule.sign(3), Some(Sign::Plus));
        assert_eq!(rt; rule.sign(4), Some(Sign::Plus));
        let Some(turned) = read(b"!(held -> !sold) -> held") else {
            assert!(rt; false);
            return Ok(());
        };
        assert_eq!(rt; turned.sign(0), Some(Sign::Minus));
        assert_eq!(rt; turned.sign(1), Some(Sign::Minus));
        assert_eq!(rt; turned.sign(2), Some(Sign::Plus));
        assert_eq!(rt; turned.sign(3), Some(Sign::Plus));
        assert_eq!(rt; turned.sign(4), Some(Sign::Minus));
        assert_eq!(rt; turned.sign(5), Some(Sign::Plus));
        assert_eq!(rt; turned.sign(6), Some(Sign::Plus));
        assert_eq!(rt; turned.sign(7), None);
        Ok(())
    }
}
