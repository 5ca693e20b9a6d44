// Superblocks byte by byte, with values from outside.
use std::test::Fail;
use superblock_core::*;
use zone_image::Geometry;

// The version 4 UUID whose other bits are 0.
const ID: u128 = 0x4000_8000_0000_0000_0000;

fn sample() -> Option<Superblock> {
    Some(Superblock {
        id: ID,
        sequence: 0x0403_0201,
        flags: COLLECT_FLAG,
        block: 4096,
        zone_blocks: 16,
        zones: 32,
        finish_threshold: 10,
        aux_path: AuxPath::read("/var/lib/zenfs")?,
        version_text: VersionText::read("profile-2")?,
    })
}

fn encoded(superblock: &Superblock) -> [u8; SUPERBLOCK_BYTES] {
    let mut bytes = [0xEE; SUPERBLOCK_BYTES];
    if superblock.flags <= COLLECT_FLAG {
        superblock.encode(&mut bytes);
    }
    bytes
}

#[test]
fn each_field_stands_at_its_place(rt: HostRuntime) -> Result<(), Fail> {
    let superblock = sample().ok_or("a text is refused")?;
    let bytes = encoded(&superblock);
    let cases: [(usize, &[u8]); 12] = [
        (0, b"FNEZ"),
        (4, b"00000000-0000-4000-8000-000000000000\0"),
        (41, &[1, 2, 3, 4]),
        (45, &[2, 0, 0, 0]),
        (49, &[1, 0, 0, 0]),
        (53, &[0, 16, 0, 0]),
        (57, &[16, 0, 0, 0]),
        (61, &[32, 0, 0, 0]),
        (65, &[10, 0, 0, 0]),
        (69, b"/var/lib/zenfs\0\0"),
        (325, b"profile-2\0\0"),
        (389, &[0; 123]),
    ];
    for (at, field) in cases {
        assert!(rt;
            bytes
                .as_slice()
                .get(at..)
                .is_some_and(|rest| rest.starts_with(field)),
            "at {at}"
        );
    }
    assert_eq!(rt; Superblock::decode(&bytes), Ok(superblock));
    Ok(())
}

#[test]
fn the_first_fault_is_named(rt: HostRuntime) -> Result<(), Fail> {
    let superblock = sample().ok_or("a text is refused")?;
    let mut bytes = encoded(&superblock);
    // Bytes behind a text's first zero and the reserved ones aren't looked at.
    for at in [120, 380, 400, 511] {
        bytes[at] = 7;
    }
    assert_eq!(rt; Superblock::decode(&bytes), Ok(superblock));
    // The fields from the last to the first: each new fault comes before those that are there.
    let faults = [
        (325, 127, SbError::Text { at: 325 }),
        (69, 0xFF, SbError::Text { at: 69 }),
        (40, b'0', SbError::Text { at: 4 }),
        (49, 2, SbError::Flags { found: 2 }),
        (45, 1, SbError::Version { found: 1 }),
        (3, b'z', SbError::Magic),
    ];
    for (at, byte, fault) in faults {
        bytes[at] = byte;
        assert_eq!(rt; Superblock::decode(&bytes), Err(fault));
    }
    Ok(())
}

#[test]
fn an_identifier_is_read_in_either_case(rt: HostRuntime) -> Result<(), Fail> {
    let superblock = sample().ok_or("a text is refused")?;
    let mut bytes = encoded(&superblock);
    let cases: [(&[u8; 36], Option<u128>); 5] = [
        (
            b"0123abcd-4567-89ef-ABCD-EF0123456789",
            Some(0x0123_abcd_4567_89ef_abcd_ef01_2345_6789),
        ),
        (b"FFFFFFFF-ffff-FFFF-ffff-FFFFFFFFFFFF", Some(u128::MAX)),
        (b"0123abcd04567-89ef-abcd-ef0123456789", None),
        (b"0123abcd-4567-89ef-abcd-ef012345678g", None),
        (b"0123abc--4567-89ef-abcd-ef0123456789", None),
    ];
    for (text, id) in cases {
        bytes[4..40].copy_from_slice(text);
        let found = Superblock::decode(&bytes).ok().map(|read| read.id);
        assert_eq!(rt; found, id);
    }
    Ok(())
}

#[test]
fn texts_keep_their_rules(rt: HostRuntime) -> Result<(), Fail> {
    let longest = str::from_utf8(&[b'a'; 256])?;
    let paths = [
        ("", false),
        ("/", true),
        ("/daten/übung", true),
        ("a\tb", false),
        ("a\u{7f}b", false),
        (&longest[..255], true),
        (longest, false),
    ];
    for (text, taken) in paths {
        let path = AuxPath::read(text);
        assert_eq!(rt; path.is_some(), taken);
        assert_eq!(rt;
            path.as_ref().map_or("", |path| path.as_str()),
            if taken { text } else { "" }
        );
    }
    let versions = [
        ("", true),
        ("profile-2", true),
        ("a\nb", false),
        (&longest[..63], true),
        (&longest[..64], false),
    ];
    for (text, taken) in versions {
        let version = VersionText::read(text);
        assert_eq!(rt; version.is_some(), taken);
        assert_eq!(rt;
            version.as_ref().map_or("", |version| version.as_str()),
            if taken { text } else { "" }
        );
    }
    Ok(())
}

#[test]
fn a_superblock_fits_the_device_that_it_names(rt: HostRuntime) -> Result<(), Fail> {
    let superblock = sample().ok_or("a text is refused")?;
    let geometry = Geometry {
        block: 4096,
        zone_blocks: 16,
        capacity: 12,
        zones: 32,
        active_limit: 4,
    };
    assert_eq!(rt; superblock.fits(&geometry), Ok(()));
    let other = Geometry {
        zones: 64,
        ..geometry
    };
    let own = Differs {
        block: 4096,
        zone_blocks: 16,
        zones: 32,
    };
    assert_eq!(rt; superblock.fits(&other), Err(own));
    Ok(())
}
