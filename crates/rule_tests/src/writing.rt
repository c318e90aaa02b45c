//! Writing, and reading again what was written.

#[cfg(test)]
mod tests {
    use rule::Rule;
    use std::alloc::{AllocError, Global};
    use std::test::Fail;

    const TICKET: [&[u8]; 2] = [b"held", b"sold"];

    // Whether the text is written so, with these marks, and nothing past it is touched.
    fn writes(text: &[u8], marks: &[u8], expected: &[u8]) -> bool {
        let mut out = [b'~'; 1024];
        let Ok(rule) = Rule::read(&TICKET, text) else {
            return false;
        };
        let length = rule.write_struck(marks, &mut out);
        length == expected.len()
            && length < 1024
            && &out[0..length] == expected
            && out[length] == b'~'
            && out[1023] == b'~'
    }

    #[test]
    fn text_as_a_value(rt: HostRuntime) -> Result<(), Fail> {
        let Ok(rule) = Rule::read(&TICKET, b"held&sold") else {
            assert!(rt; false);
            return Ok(());
        };
        let text = rule.text();
        assert!(rt; text.as_slice() == b"(held & sold)".as_slice());
        Ok(())
    }

    #[test]
    fn forms(rt: HostRuntime) {
        assert!(rt; writes(b"true", &[0], b"true"));
        assert!(rt; writes(b"(((false)))", &[0], b"false"));
        assert!(rt; writes(b"!held", &[0], b"!held"));
        assert!(rt; writes(b"!!  held", &[0], b"!!held"));
        assert!(rt; writes(b"EX AX EF AF EG AG sold", &[0], b"EX AX EF AF EG AG sold"));
        assert!(rt; writes(b"held&sold", &[0], b"(held & sold)"));
        assert!(rt; writes(b"held|sold", &[0], b"(held | sold)"));
        assert!(rt; writes(b"held->sold", &[0], b"(held -> sold)"));
        assert!(rt; writes(b"E [held U sold]", &[0], b"E[held U sold]"));
        assert!(rt;
            writes(
                b"A[ ! held U sold & held ]",
                &[0],
                b"A[!held U (sold & held)]",
            )
        );
        assert!(rt; writes(b"AG (paid -> AF sold)", &[0], b"AG (false -> AF sold)"));
    }

    #[test]
    fn struck_parts(rt: HostRuntime) {
        assert!(rt; writes(b"AG (held -> EF sold)", &[1], b"AG (true -> EF sold)"));
        assert!(rt; writes(b"AG (held -> EF sold)", &[0, 1], b"AG (held -> EF false)"));
        assert!(rt; writes(b"AG (held -> EF sold)", &[0, 0, 1], b"AG (held -> false)"));
        assert!(rt; writes(b"AG (held -> EF sold)", &[1, 1, 255], b"AG (true -> false)"));
        assert!(rt; writes(b"AG (held -> EF sold)", &[1, 0, 0, 1, 0, 9], b"AG false"));
        assert!(rt; writes(b"AG (held -> EF sold)", &[0, 0, 0, 0, 1], b"false"));
        assert!(rt; writes(b"!(held & sold)", &[1], b"!(true & sold)"));
        assert!(rt; writes(b"!(held & sold)", &[0, 0, 1], b"!true"));
    }

    #[test]
    fn buffers(rt: HostRuntime) -> Result<(), Fail> {
        let Ok(rule) = Rule::read(&TICKET, b"held & sold") else {
            assert!(rt; false);
            return Ok(());
        };
        let mut short = [b'~'; 12];
        assert_eq!(rt; rule.write(&mut short), 0);
        assert!(rt; short == [b'~'; 12]);
        let mut exact = [b'~'; 13];
        assert_eq!(rt; rule.write(&mut exact), 13);
        assert!(rt; &exact == b"(held & sold)");
        let mut none = [0u8; 0];
        assert_eq!(rt; rule.write(&mut none), 0);
        Ok(())
    }

    // The name of 16 bytes, so many times with arrows between, under `AG`.
    fn arrows(heap: Global, count: usize) -> Result<Vec<u8>, AllocError> {
        let mut text = Vec::from_slice(heap, b"AG (abcdefghijklmnop")?;
        // A `for` that counts pieces: a chain of them would be copied once more.
        for _ in 1..count {
            text.extend_from_slice(b"->abcdefghijklmnop")?;
        }
        text.push(b')')?;
        Ok(text)
    }

    #[test]
    fn longest_rule(rt: HostRuntime) -> Result<(), Fail> {
        // 32 names, 31 arrows and the `AG` are 64 parts.
        let names: [&[u8]; 1] = [b"abcdefghijklmnop"];
        let text = arrows(rt.alloc(), 32)?;
        let Ok(rule) = Rule::read(&names, &text) else {
            assert!(rt; false);
            return Ok(());
        };
        assert_eq!(rt; rule.len(), 64);
        let mut out = [0u8; 701];
        assert_eq!(rt; rule.write(&mut out), 701);
        let Ok(again) = Rule::read(&names, &out) else {
            assert!(rt; false);
            return Ok(());
        };
        assert_eq!(rt; again.len(), 64);
        Ok(())
    }
}
