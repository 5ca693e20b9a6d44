use record_model::*;
use std::test::*;

// Names of the longest and the shortest form, and next to each rule a text that breaks it.
#[test]
fn names_are_read_by_the_rule(rt: HostRuntime) -> Result<(), Fail> {
    for good in ["a", "dir/file.sst", ".a", "..b/c.", "ä/ö", " "] {
        let name = Name::read(rt.alloc(), good).ok().ok_or(good)?;
        assert_eq!(rt; name.items(), good.as_bytes());
    }
    for bad in [
        "", "/a", "a/", "a//b", ".", "..", "a/./b", "../b", "a\tb", "a\u{7f}",
    ] {
        assert!(rt; matches!(Name::read(rt.alloc(), bad), Err(NameError::BadName)));
    }
    let longest = [b'n'; MAX_NAME_BYTES];
    assert!(rt; Name::from_bytes(rt.alloc(), &longest).is_ok());
    let longer = [b'n'; MAX_NAME_BYTES + 1];
    assert!(rt;
        matches!(
            Name::from_bytes(rt.alloc(), &longer),
            Err(NameError::BadName)
        )
    );
    assert!(rt;
        matches!(
            Name::from_bytes(rt.alloc(), &[0xc3]),
            Err(NameError::BadName)
        )
    );
    Ok(())
}
