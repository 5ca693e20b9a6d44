use fs_report::{
    MemSink, OutSink, Sink, Status, info_text, list_text, made_fs_text, made_image_text, write_all,
};
use record_model::{Extents, FileEntry, NO_ACTIVE, Name, Names};
use std::alloc::Global;
use std::test::Fail;
use superblock_core::{AuxPath, Superblock, VersionText};
use zone_image::Geometry;

fn file(alloc: Global, size: u64, names: &[&str]) -> Result<FileEntry, Fail> {
    let mut all = Vec::new(alloc);
    for name in names {
        all.push(Name::read(alloc, name)?)?;
    }
    Ok(FileEntry {
        id: 1,
        size,
        hint: 0,
        time: 1_700_000_000,
        active: NO_ACTIVE,
        sparse: false,
        extents: Extents::from_vec(Vec::new(alloc)),
        names: Names::from_vec(all),
    })
}

#[test]
fn lists_names_in_byte_order_with_sizes_to_the_right(rt: HostRuntime) -> Result<(), Fail> {
    let alloc = rt.alloc();
    let files = vec![in alloc;
        file(alloc, 5, &["b", "a/c"])?,
        file(alloc, 1_234_567_890_123, &["a"])?,
    ]?;
    let text = list_text(alloc, &files, None)?;
    let wanted =
        b"1234567890123\t1700000000\ta\n           5\t1700000000\ta/c\n           5\t1700000000\tb\n";
    assert_eq!(rt; text.items(), wanted.as_slice());
    Ok(())
}

#[test]
fn lists_only_the_names_under_a_prefix(rt: HostRuntime) -> Result<(), Fail> {
    let alloc = rt.alloc();
    let files = vec![in alloc; file(alloc, 5, &["db/b", "db", "dbx", "a/db"])?]?;
    let prefix = Name::read(alloc, "db")?;
    let text = list_text(alloc, &files, Some(&prefix))?;
    assert_eq!(rt;
        text.items(),
        b"           5\t1700000000\tdb/b\n".as_slice()
    );
    Ok(())
}

// Sixteen blocks of 512 bytes in each of 32 zones.
const GEOMETRY: Geometry = Geometry {
    block: 512,
    zone_blocks: 16,
    capacity: 16,
    zones: 32,
    active_limit: 6,
};

#[test]
fn says_what_was_made(rt: HostRuntime) -> Result<(), Fail> {
    let alloc = rt.alloc();
    let image = made_image_text(alloc, &GEOMETRY)?;
    assert_eq!(rt;
        image.items(),
        b"image created: 32 zones of 8192 bytes\n".as_slice()
    );
    let made = made_fs_text(alloc, &GEOMETRY)?;
    let wanted = b"ZenFS file system created. Free space: 237568 bytes\n";
    assert_eq!(rt; made.items(), wanted.as_slice());
    Ok(())
}

#[test]
fn prints_a_superblock_in_eleven_lines(rt: HostRuntime) -> Result<(), Fail> {
    let alloc = rt.alloc();
    let superblock = Superblock {
        id: 0x0000_0000_0000_4000_8000_0000_0000_0000,
        sequence: 1,
        flags: 0,
        block: 512,
        zone_blocks: 16,
        zones: 32,
        finish_threshold: 0,
        aux_path: AuxPath::read("/aux").ok_or("no path")?,
        version_text: VersionText::read("profile-2").ok_or("no text")?,
    };
    let text = info_text(alloc, &superblock)?;
    let wanted = b"Magic: 5a454e46\nUUID: 00000000-0000-4000-8000-000000000000\nSequence: 1\n\
        Version: 2\nFlags: 0\nBlock size: 512\nZone size: 16\nZone count: 32\n\
        Finish threshold: 0\nAuxiliary path: /aux\nZenFS version: profile-2\n";
    assert_eq!(rt; text.items(), wanted.as_slice());
    Ok(())
}

#[test]
fn a_sink_in_memory_keeps_what_fits_and_fails_as_listed(rt: HostRuntime) -> Result<(), Fail> {
    let alloc = rt.alloc();
    let mut sink = MemSink::new(alloc, 4, vec![in alloc; 2]?)?;
    assert_eq!(rt; sink.write(b"abc"), Ok(3));
    assert!(rt; sink.write(b"d").is_err());
    assert!(rt; write_all(&mut sink, b"de").is_err());
    assert_eq!(rt; sink.bytes(), b"abcd".as_slice());
    Ok(())
}

#[test]
fn a_sink_over_a_writer_hands_on_what_is_written(rt: HostRuntime) -> Result<(), Fail> {
    let alloc = rt.alloc();
    let mut sink = OutSink::new(Vec::<u8>::new(alloc));
    assert!(rt; write_all(&mut sink, b"abc").is_ok());
    assert!(rt; sink.write(b"").is_ok());
    Ok(())
}

#[test]
fn each_status_has_its_code(rt: HostRuntime) {
    let all = [
        Status::Ok,
        Status::Refused,
        Status::Words,
        Status::Fault,
        Status::Memory,
        Status::Damaged,
    ];
    for (code, status) in all.iter().enumerate() {
        assert_eq!(rt; usize::from(status.code()), code);
    }
}
