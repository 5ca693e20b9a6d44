use record_codec::*;
use std::alloc::Global;
use std::test::*;

const SNAPSHOT: &[u8] = &[1, 0, 0, 0];

const UPDATE: &[u8] = &[2, 0, 0, 0];

const DELETION: &[u8] = &[3, 0, 0, 0];

const END: &[u8] = &[4, 0, 0, 0];

const REPLACEMENT: &[u8] = &[5, 0, 0, 0];

// Fields of an entry: id 1, an id and a hint out of range, the mark of a sparse file, and names.
const ID: &[u8] = &[1, 0, 0, 0, 1, 0, 0, 0, 0, 0, 0, 0];

// All but the last byte of it.
const CUT_ID: &[u8] = &[1, 0, 0, 0, 1, 0, 0, 0, 0, 0, 0];

const NO_ID: &[u8] = &[1, 0, 0, 0, 255, 255, 255, 255, 255, 255, 255, 255];

const HINT_6: &[u8] = &[4, 0, 0, 0, 6, 0, 0, 0];

const SPARSE: &[u8] = &[8, 0, 0, 0];

const NAME_A: &[u8] = &[9, 0, 0, 0, 1, b'a'];

const NAME_B: &[u8] = &[9, 0, 0, 0, 1, b'b'];

const ONE: &[u8] = &[1, 0, 0, 0, 0, 0, 0, 0];

// All but the last byte of it.
const CUT_ONE: &[u8] = &[1, 0, 0, 0, 0, 0, 0];

const NONE: &[u8] = &[255, 255, 255, 255, 255, 255, 255, 255];

const ZERO: &[u8] = &[0, 0, 0, 0, 0, 0, 0, 0];

// A whole entry but for its extents, its mark and its name, and these.
const FRONT: &[u8] = &[
    1, 0, 0, 0, 1, 0, 0, 0, 0, 0, 0, 0, 3, 0, 0, 0, 8, 0, 0, 0, 0, 0, 0, 0, 4, 0, 0, 0, 5, 0, 0, 0,
];

const EXTENT: &[u8] = &[
    5, 0, 0, 0, 16, 0, 2, 0, 0, 0, 0, 0, 0, 8, 0, 0, 0, 0, 0, 0, 0,
];

const BACK: &[u8] = &[
    6, 0, 0, 0, 7, 0, 0, 0, 0, 0, 0, 0, 7, 0, 0, 0, 0, 16, 0, 0, 0, 0, 0, 0,
];

const A_TXT: &[u8] = &[9, 0, 0, 0, 5, b'a', b'.', b't', b'x', b't'];

// The update that creates a.txt with id 1, hint 0 and time 1700000000, a field a line.
const CREATE_A_TXT: [u8; 71] = [
    2, 0, 0, 0, 0x42, // update, a slice of 66 bytes
    1, 0, 0, 0, 1, 0, 0, 0, 0, 0, 0, 0, // id
    3, 0, 0, 0, 0, 0, 0, 0, 0, 0, 0, 0, // size
    4, 0, 0, 0, 0, 0, 0, 0, // hint
    6, 0, 0, 0, 0x00, 0xf1, 0x53, 0x65, 0, 0, 0, 0, // time
    7, 0, 0, 0, 255, 255, 255, 255, 255, 255, 255, 255, // no active extent
    9, 0, 0, 0, 5, b'a', b'.', b't', b'x', b't', // name
];

// The deletion of that name.
const DELETE_A_TXT: [u8; 19] = [
    3, 0, 0, 0, 0x0e, 1, 0, 0, 0, 0, 0, 0, 0, 5, b'a', b'.', b't', b'x', b't',
];

fn joined(alloc: Global, parts: &[&[u8]]) -> Result<Vec<u8>, Fail> {
    let mut bytes = Vec::new(alloc);
    for part in parts {
        bytes.extend_from_slice(part)?;
    }
    Ok(bytes)
}

// The first fault of the payload that these parts make.
fn fault_of(alloc: Global, parts: &[&[u8]]) -> Result<DecodeFault, Fail> {
    let payload = joined(alloc, parts)?;
    match decode(alloc, &payload) {
        Err(DecodeError::Bad(fault)) => Ok(fault),
        Err(DecodeError::NoMemory) => Err("memory is wanting")?,
        Ok(_record) => Err("the payload is a record")?,
    }
}

#[test]
fn faults_stand_where_they_begin(rt: HostRuntime) -> Result<(), Fail> {
    let cases: [(&[&[u8]], u32, Why); 44] = [
        // Records.
        (&[&[1, 0, 0]], 0, Why::Short),
        (&[&[9, 0, 0, 0]], 0, Why::Tag(9)),
        (&[SNAPSHOT, &[5]], 4, Why::Short),
        (&[SNAPSHOT, &[0x80]], 4, Why::Short),
        (&[SNAPSHOT, &[0x80; 7]], 4, Why::Short),
        (&[SNAPSHOT, &[0x80, 0]], 4, Why::Range),
        (&[SNAPSHOT, &[0x80, 0x80, 0x80, 0x80, 0x10]], 4, Why::Range),
        (&[SNAPSHOT, &[0xff; 6], &[1]], 4, Why::Range),
        (&[SNAPSHOT, &[0, 0xff]], 5, Why::Range),
        (&[SNAPSHOT, &[1, 0x80]], 5, Why::Short),
        (&[SNAPSHOT, &[22, 12], ID, &[8], HINT_6], 6, Why::Missing(3)),
        (&[END, &[0]], 4, Why::Range),
        // Entries of updates, at the field.
        (&[UPDATE, &[0]], 5, Why::Missing(1)),
        (&[UPDATE, &[18], ID, NAME_A], 5, Why::Missing(3)),
        (&[UPDATE, &[12], NO_ID], 5, Why::Range),
        (&[UPDATE, &[24], ID, NO_ID], 17, Why::Twice(1)),
        (&[UPDATE, &[23], ID, CUT_ID], 17, Why::Short),
        (&[UPDATE, &[15], ID, &[1, 0, 0]], 17, Why::Short),
        (&[UPDATE, &[16], ID, &[2, 0, 0, 0]], 17, Why::Tag(2)),
        (&[UPDATE, &[8], HINT_6], 5, Why::Range),
        (&[UPDATE, &[20, 5, 0, 0, 0, 15], &[1; 15]], 5, Why::Range),
        (&[UPDATE, &[21, 5, 0, 0, 0, 16], ONE, ZERO], 5, Why::Range),
        (&[UPDATE, &[6, 5, 0, 0, 0, 16, 0]], 5, Why::Short),
        (&[UPDATE, &[8], SPARSE, SPARSE], 9, Why::Twice(8)),
        (&[UPDATE, &[18], NAME_A, NAME_B, NAME_A], 17, Why::Twice(9)),
        (&[UPDATE, &[7, 9, 0, 0, 0, 2, b'a', b'/']], 5, Why::Range),
        (&[UPDATE, &[7, 9, 0, 0, 0, 0x81, 0, b'a']], 5, Why::Range),
        // Replacements.
        (&[REPLACEMENT], 4, Why::Short),
        (&[REPLACEMENT, &[0x80, 0]], 4, Why::Range),
        (&[REPLACEMENT, &[11], CUT_ID], 5, Why::Short),
        (&[REPLACEMENT, &[16], ID, &[2, 0, 0, 0]], 17, Why::Tag(2)),
        (&[REPLACEMENT, &[24], ID, ID], 17, Why::Twice(1)),
        (
            &[REPLACEMENT, &[18], NAME_A, NAME_B, NAME_A],
            17,
            Why::Twice(9),
        ),
        (&[REPLACEMENT, &[8], HINT_6], 5, Why::Range),
        (&[REPLACEMENT, &[0]], 5, Why::Missing(1)),
        (&[REPLACEMENT, &[12], ID], 5, Why::Missing(3)),
        (&[REPLACEMENT, &[56], FRONT, BACK], 5, Why::Missing(9)),
        (
            &[REPLACEMENT, &[66], FRONT, BACK, A_TXT, &[0]],
            71,
            Why::Range,
        ),
        // Deletions, at their part.
        (&[DELETION, &[7], CUT_ONE], 5, Why::Short),
        (&[DELETION, &[9], NONE, &[0]], 5, Why::Range),
        (&[DELETION, &[9], ONE, &[0]], 13, Why::Range),
        (&[DELETION, &[9], ONE, &[2]], 13, Why::Short),
        (&[DELETION, &[11], ONE, &[1, b'a', 0]], 15, Why::Range),
        (&[DELETION, &[10], ONE, &[1, b'a'], &[0]], 15, Why::Range),
    ];
    for (parts, at, why) in cases {
        assert_eq!(rt; fault_of(rt.alloc(), parts)?, DecodeFault { at, why });
    }
    Ok(())
}

fn create_a_txt(alloc: Global) -> Result<Record, Fail> {
    let mut names = Vec::new(alloc);
    names.push(a_txt(alloc)?)?;
    Ok(Record::Update(FileEntry {
        id: 1,
        size: 0,
        hint: 0,
        time: 1_700_000_000,
        active: NO_ACTIVE,
        sparse: false,
        extents: Extents::from_vec(Vec::new(alloc)),
        names: Names::from_vec(names),
    }))
}

fn a_txt(alloc: Global) -> Result<Name, Fail> {
    Ok(Name::read(alloc, "a.txt").ok().ok_or("a.txt is a name")?)
}

// The payload that the encoder writes, where it has as many bytes as `encoded_len` says.
fn written(alloc: Global, value: &Record) -> Result<Payload, Fail> {
    let len = encoded_len(value);
    if len > u64::from(u32::MAX) {
        return Err("a payload has fewer than 2^32 bytes")?;
    }
    let payload = encode(alloc, value)?;
    if payload.items().len() as u64 != len {
        return Err("the payload has another length")?;
    }
    Ok(payload)
}

#[test]
fn records_are_written_as_the_vectors_say(rt: HostRuntime) -> Result<(), Fail> {
    let alloc = rt.alloc();
    let create = create_a_txt(alloc)?;
    assert_eq!(rt; written(alloc, &create)?.items(), CREATE_A_TXT.as_slice());
    let delete = Record::Deletion {
        id: 1,
        name: a_txt(alloc)?,
    };
    assert_eq!(rt; written(alloc, &delete)?.items(), DELETE_A_TXT.as_slice());
    let empty = Record::Snapshot(Files::from_vec(Vec::new(alloc)));
    assert_eq!(rt;
        written(alloc, &empty)?.items(),
        [1u8, 0, 0, 0, 0].as_slice()
    );
    assert_eq!(rt; written(alloc, &Record::End)?.items(), END);
    Ok(())
}

// The payload is read, and written again as the same bytes.
fn is_written_again(alloc: Global, parts: &[&[u8]]) -> Result<bool, Fail> {
    let payload = joined(alloc, parts)?;
    match decode(alloc, &payload) {
        Ok(value) => Ok(written(alloc, &value)?.items() == payload.as_slice()),
        Err(_e) => Err("the payload is a record")?,
    }
}

#[test]
fn payloads_are_written_again_as_they_were(rt: HostRuntime) -> Result<(), Fail> {
    let cases: [&[&[u8]]; 5] = [
        &[END],
        &[DELETION, &[10], ONE, &[1, b'a']],
        &[UPDATE, &[66], FRONT, BACK, A_TXT],
        &[REPLACEMENT, &[70], FRONT, BACK, SPARSE, A_TXT],
        &[
            SNAPSHOT,
            &[0xb0, 0x01],
            &[66],
            FRONT,
            BACK,
            A_TXT,
            &[108],
            FRONT,
            EXTENT,
            EXTENT,
            BACK,
            A_TXT,
        ],
    ];
    for parts in cases {
        assert!(rt; is_written_again(rt.alloc(), parts)?);
    }
    Ok(())
}
