//! Lists in fixed memory.

#[cfg(test)]
mod tests {
    use fixed_vec::{FixedVec, Full};

    #[test]
    fn push_to_the_last_place(rt: HostRuntime) {
        let mut list: FixedVec<u8, 2> = FixedVec::new(9);
        assert_eq!(rt; list.len(), 0);
        assert_eq!(rt; list.push(1), Ok(()));
        assert_eq!(rt; list.push(2), Ok(()));
        assert_eq!(rt; list.push(3), Err(Full));
        assert!(rt; list.as_slice() == [1, 2].as_slice());
    }

    #[test]
    fn extend_to_the_last_place(rt: HostRuntime) {
        let mut list: FixedVec<u8, 4> = FixedVec::new(9);
        assert_eq!(rt; list.extend_from_slice(&[1, 2, 3]), Ok(()));
        assert_eq!(rt; list.extend_from_slice(&[4, 5]), Err(Full));
        assert!(rt;
            list.as_slice() == [1, 2, 3].as_slice(),
            "a refusal changes nothing"
        );
        assert_eq!(rt; list.extend_from_slice(&[4]), Ok(()));
        assert_eq!(rt; list.extend_from_slice(&[]), Ok(()));
        assert!(rt; list.as_slice() == [1, 2, 3, 4].as_slice());
    }
}
