//! Reading: examples, and every refusal at its limit.

#[cfg(test)]
mod tests {
    use rule::Rule;
    use std::alloc::{AllocError, Global};
    use std::test::Fail;

    const TICKET: [&[u8]; 2] = [b"held", b"sold"];

    // The count of parts, or the number and the place of the refusal.
    fn answer(names: &[&[u8]], text: &[u8]) -> Result<usize, (u8, usize)> {
        Rule::read(names, text)
            .map(|rule| rule.len())
            .map_err(|fault| (fault.number(), fault.place()))
    }

    // The same with the ticket flow's names.
    fn ticket(text: &[u8]) -> Result<usize, (u8, usize)> {
        answer(&TICKET, text)
    }

    // So many times a byte, a text, and so many times another byte.
    fn around(
        heap: Global,
        left: u8,
        count: usize,
        text: &[u8],
        right: u8,
        last: usize,
    ) -> Result<Vec<u8>, AllocError> {
        let mut bytes = vec![in heap; left; count]?;
        bytes.extend_from_slice(text)?;
        bytes.extend_from_slice(&vec![in heap; right; last]?)?;
        Ok(bytes)
    }

    #[test]
    fn examples(rt: HostRuntime) {
        assert_eq!(rt; ticket(b"AG (held -> EF sold)"), Ok(5));
        assert_eq!(rt; ticket(b"held % sold"), Err((3, 5)));
        assert_eq!(rt; ticket(b"held sold"), Err((5, 5)));
        assert_eq!(rt; ticket(b"AG"), Err((5, 2)));
        assert_eq!(rt; ticket(b"held sold %"), Err((3, 10)));
        assert_eq!(rt; ticket(b"held & abcdefghijklmnopq"), Err((4, 7)));
        assert_eq!(rt; ticket(b"E[!sold U held] | A[true U false]"), Ok(8));
        assert_eq!(rt; ticket(b"  held&sold->!held  "), Ok(6));
    }

    // How a refusal shows.
    #[test]
    fn shown_refusals(rt: HostRuntime) -> Result<(), Fail> {
        for (text, shown) in [
            (b"held % sold".as_slice(), "3 at 5"),
            (b"AG".as_slice(), "5 at 2"),
        ] {
            let Err(fault) = Rule::read(&TICKET, text) else {
                assert!(rt; false);
                return Ok(());
            };
            assert_eq!(rt; fault.to_string(rt.alloc())?.as_str(), shown);
        }
        Ok(())
    }

    #[test]
    fn texts_that_end_early(rt: HostRuntime) {
        assert_eq!(rt; ticket(b""), Err((5, 0)));
        assert_eq!(rt; ticket(b"   "), Err((5, 3)));
        assert_eq!(rt; ticket(b"held &"), Err((5, 6)));
        assert_eq!(rt; ticket(b"held -> "), Err((5, 8)));
        assert_eq!(rt; ticket(b"(held"), Err((5, 5)));
        assert_eq!(rt; ticket(b"E"), Err((5, 1)));
        assert_eq!(rt; ticket(b"E["), Err((5, 2)));
        assert_eq!(rt; ticket(b"E[held"), Err((5, 6)));
        assert_eq!(rt; ticket(b"E[held U"), Err((5, 8)));
        assert_eq!(rt; ticket(b"E[held U sold"), Err((5, 13)));
    }

    #[test]
    fn stray_words(rt: HostRuntime) {
        assert_eq!(rt; ticket(b")"), Err((5, 0)));
        assert_eq!(rt; ticket(b"& held"), Err((5, 0)));
        assert_eq!(rt; ticket(b"held )"), Err((5, 5)));
        assert_eq!(rt; ticket(b"(held]"), Err((5, 5)));
        assert_eq!(rt; ticket(b"held U sold"), Err((5, 5)));
        assert_eq!(rt; ticket(b"A held"), Err((5, 2)));
        assert_eq!(rt; ticket(b"A(held U sold)"), Err((5, 1)));
        assert_eq!(rt; ticket(b"E[held]"), Err((5, 6)));
        assert_eq!(rt; ticket(b"E[held U sold U held]"), Err((5, 14)));
        assert_eq!(rt; ticket(b"(held U sold)"), Err((5, 6)));
        assert_eq!(rt; ticket(b"held !sold"), Err((5, 5)));
        assert_eq!(rt; ticket(b"held true"), Err((5, 5)));
        assert_eq!(rt; ticket(b"held | -> sold"), Err((5, 7)));
    }

    #[test]
    fn strange_bytes(rt: HostRuntime) {
        assert_eq!(rt; ticket(b"-held"), Err((3, 0)), "a `-` alone");
        assert_eq!(rt; ticket(b"held -"), Err((3, 5)), "a `-` at the end");
        assert_eq!(rt; ticket(b"held - > sold"), Err((3, 5)));
        assert_eq!(rt;
            ticket(b"held\tsold"),
            Err((3, 4)),
            "a tab separates nothing"
        );
        assert_eq!(rt; ticket(b"held\n"), Err((3, 4)));
        assert_eq!(rt; ticket(b"_held"), Err((3, 0)));
        assert_eq!(rt; ticket(b"2held"), Err((3, 0)));
        assert_eq!(rt; ticket(b"held -> s\xc3\xb6ld"), Err((3, 9)));
        assert_eq!(rt; ticket(b"\0"), Err((3, 0)));
    }

    #[test]
    fn words_of_16_and_17_bytes(rt: HostRuntime) {
        assert_eq!(rt; ticket(b"abcdefghijklmnop"), Ok(1));
        assert_eq!(rt; ticket(b"abcdefghijklmnopq"), Err((4, 0)));
        assert_eq!(rt; ticket(b"held & a_2defghijklmnop"), Ok(3));
        assert_eq!(rt;
            ticket(b"% abcdefghijklmnopq"),
            Err((3, 0)),
            "3 comes first"
        );
        assert_eq!(rt;
            ticket(b"abcdefghijklmnopq %"),
            Err((4, 0)),
            "4 comes first"
        );
    }

    #[test]
    fn reserved_words(rt: HostRuntime) {
        for word in [b"AX", b"EX", b"AF", b"EF", b"AG", b"EG"] {
            assert_eq!(rt; ticket(word), Err((5, 2)));
        }
        assert_eq!(rt; ticket(b"A"), Err((5, 1)));
        assert_eq!(rt; ticket(b"U"), Err((5, 0)));
        assert_eq!(rt; ticket(b"true"), Ok(1));
        assert_eq!(rt; ticket(b"false"), Ok(1));
        assert_eq!(rt; ticket(b"ax"), Ok(1), "small letters are a name");
        assert_eq!(rt; ticket(b"AGheld"), Ok(1), "a run is taken whole");
        assert_eq!(rt; ticket(b"AG held"), Ok(2));
    }

    #[test]
    fn name_lists(rt: HostRuntime) {
        assert_eq!(rt; answer(&[b"held", b""], b"held"), Err((1, 1)));
        assert_eq!(rt; answer(&[b"2x"], b"held"), Err((1, 0)));
        assert_eq!(rt; answer(&[b"a b"], b"held"), Err((1, 0)));
        assert_eq!(rt;
            answer(&[b"held", b"abcdefghijklmnopq"], b"held"),
            Err((1, 1))
        );
        assert_eq!(rt; answer(&[b"held", b"abcdefghijklmnop"], b"held"), Ok(1));
        assert_eq!(rt; answer(&[b"held", b"sold", b"held"], b"held"), Err((1, 2)));
        assert_eq!(rt; answer(&[b"held", b"U"], b"held"), Err((1, 1)));
        assert_eq!(rt; answer(&[b"Held", b"held"], b"%"), Err((3, 0)));
        assert_eq!(rt;
            answer(&[b"true", b"%"], b"%"),
            Err((1, 0)),
            "1 goes before 3, the lowest entry first"
        );
    }

    #[test]
    fn names_32_and_33(rt: HostRuntime) {
        let many: [&[u8]; 33] = [
            b"a", b"b", b"c", b"d", b"e", b"f", b"g", b"h", b"i", b"j", b"k", b"l", b"m", b"n",
            b"o", b"p", b"q", b"r", b"s", b"t", b"u", b"v", b"w", b"x", b"y", b"z", b"a1", b"b1",
            b"c1", b"d1", b"e1", b"f1", b"AX",
        ];
        assert_eq!(rt; answer(&many[0..32], b"f1"), Ok(1));
        assert_eq!(rt;
            answer(&many, b"f1"),
            Err((1, 32)),
            "too many goes before a bad entry"
        );
    }

    #[test]
    fn text_of_1024_and_1025_bytes(rt: HostRuntime) -> Result<(), Fail> {
        let heap = rt.alloc();
        let longest = around(heap, b' ', 1020, b"held", b' ', 0)?;
        assert_eq!(rt; ticket(&longest), Ok(1));
        let longer = around(heap, b'%', 1021, b"held", b' ', 0)?;
        assert_eq!(rt; ticket(&longer), Err((2, 1024)));
        Ok(())
    }

    #[test]
    fn parts_64_and_65(rt: HostRuntime) -> Result<(), Fail> {
        let heap = rt.alloc();
        let most = around(heap, b'!', 63, b"held", b' ', 2)?;
        assert_eq!(rt; ticket(&most), Ok(64));
        let more = around(heap, b'!', 64, b"held", b' ', 2)?;
        assert_eq!(rt; ticket(&more), Err((6, 70)));
        let stray = around(heap, b'!', 900, b"held", b')', 1)?;
        assert_eq!(rt; ticket(&stray), Err((5, 904)), "5 goes before 6");
        Ok(())
    }

    #[test]
    fn deep_brackets(rt: HostRuntime) -> Result<(), Fail> {
        let heap = rt.alloc();
        let deepest = around(heap, b'(', 510, b"sold", b')', 510)?;
        assert_eq!(rt; ticket(&deepest), Ok(1));
        let open = around(heap, b'(', 510, b"sold", b')', 509)?;
        assert_eq!(rt; ticket(&open), Err((5, 1023)));
        let shut = around(heap, b'(', 509, b"sold", b')', 510)?;
        assert_eq!(rt; ticket(&shut), Err((5, 1022)));
        Ok(())
    }
}
