use crate::images::zones_of;
use fs_report::{MemSink, Status};
use image_backend::{Access, DiskFile, ImageZones};
use meta_log::spell;
use std::alloc::Global;
use std::fs;
use std::fs::OpenOptions;
use std::process::Abort;
use std::test::Fail;
use superblock_core::{AuxPath, Superblock, VersionText};
use zenfs_cmd::run;
use zone_image::Geometry;
use zoned_device::ZonedDevice;

const SHAPE: Geometry = Geometry {
    block: 512,
    zone_blocks: 16,
    capacity: 16,
    zones: 32,
    active_limit: 6,
};

// A snapshot of the empty file `a.txt`: its tag, the length of its list, and the list's one entry.
const A_TXT: &[u8] =
    b"\x01\0\0\0\x43\x42\x01\0\0\0\x01\0\0\0\0\0\0\0\x03\0\0\0\0\0\0\0\0\0\0\0\x04\0\0\0\0\0\0\0\x06\0\0\0\x00\xf1\x53\x65\0\0\0\0\x07\0\0\0\xff\xff\xff\xff\xff\xff\xff\xff\x09\0\0\0\x05a.txt";

// Writes an image whose zone 0 has a superblock and this snapshot.
fn write_image(
    abort: &impl Abort,
    rt: HostRuntime,
    path: &str,
    snapshot: &[u8],
) -> Result<(), Fail> {
    let alloc = rt.alloc();
    let superblock = Superblock {
        id: 0,
        sequence: 1,
        flags: 0,
        block: 512,
        zone_blocks: 16,
        zones: 32,
        finish_threshold: 0,
        aux_path: AuxPath::read("/aux").ok_or("no path")?,
        version_text: VersionText::read("profile-2").ok_or("no text")?,
    };
    let mut bytes = [0; 512];
    superblock.encode(&mut bytes);
    assert!(abort; !snapshot.is_empty() && snapshot.len() < 500);
    let mut log = spell(alloc, &bytes, 512)?.items().to_vec(alloc)?;
    log.extend_from_slice(spell(alloc, snapshot, 512)?.items())?;
    assert!(abort; log.len() == 1536);
    let file = DiskFile::new(rt, String::from_str(alloc, path)?, Access::Change);
    let mut zones = ImageZones::new(alloc, file);
    zones.make(&SHAPE)?;
    zones.append(0, log.as_slice())?;
    zones.sync()?;
    Ok(())
}

// How `zenfs` ends with these words over the image file that they name, and what it says.
fn said(rt: HostRuntime, words: &[&str]) -> Result<(Status, Vec<u8>, Vec<u8>), Fail> {
    let alloc = rt.alloc();
    let mut given = Vec::new(alloc);
    for word in words {
        given.push(String::from_str(alloc, word)?)?;
    }
    let zones = zones_of(rt, given.as_slice()).map_err(|_| "no memory")?;
    let mut out = MemSink::new(alloc, 100, Vec::new(alloc))?;
    let mut err = MemSink::new(alloc, 100, Vec::new(alloc))?;
    let (status, _) = run(alloc, given.as_slice(), zones, &mut out, &mut err, 0);
    Ok((
        status,
        out.bytes().to_vec(alloc)?,
        err.bytes().to_vec(alloc)?,
    ))
}

// How `zenfs list` ends over an image file, and what it says.
fn listed(rt: HostRuntime, option: &str) -> Result<(Status, Vec<u8>, Vec<u8>), Fail> {
    said(rt, &["list", option])
}

#[test]
fn an_image_file_is_listed_and_a_cut_or_absent_one_is_none(rt: HostRuntime) -> Result<(), Fail> {
    let path = "zenfs_test.img";
    let option = "--image=zenfs_test.img";
    let _ = fs::remove_file(&rt, path);
    write_image(&rt, rt, path, A_TXT)?;
    let (status, out, err) = listed(rt, option)?;
    assert_eq!(rt; status, Status::Ok);
    assert_eq!(rt;
        out.as_slice(),
        b"           0\t1700000000\ta.txt\n".as_slice()
    );
    assert_eq!(rt; err.len(), 0);

    OpenOptions::new()
        .write(true)
        .open(&rt, path)?
        .set_len(270_335)?;
    let (status, _, err) = listed(rt, option)?;
    assert_eq!(rt; status, Status::Refused);
    assert_eq!(rt; err.as_slice(), b"zenfs: not a zoned image\n".as_slice());
    fs::remove_file(&rt, path)?;
    let (status, _, err) = listed(rt, option)?;
    assert_eq!(rt; status, Status::Refused);
    assert_eq!(rt; err.as_slice(), b"zenfs: not a zoned image\n".as_slice());
    Ok(())
}

#[test]
fn a_name_that_is_deleted_in_an_image_file_is_listed_no_more(rt: HostRuntime) -> Result<(), Fail> {
    let path = "zenfs_deletion_test.img";
    let option = "--image=zenfs_deletion_test.img";
    let _ = fs::remove_file(&rt, path);
    write_image(&rt, rt, path, A_TXT)?;
    let (status, out, err) = said(rt, &["delete", option, "--path=a.txt"])?;
    assert_eq!(rt; status, Status::Ok);
    assert_eq!(rt; (out.len(), err.len()), (0, 0));
    let (status, out, _) = listed(rt, option)?;
    assert_eq!(rt; status, Status::Ok);
    assert_eq!(rt; out.len(), 0);
    let (status, _, err) = said(rt, &["delete", option, "--path=a.txt"])?;
    assert_eq!(rt; status, Status::Refused);
    assert_eq!(rt; err.as_slice(), b"zenfs: a.txt: not found\n".as_slice());
    fs::remove_file(&rt, path)?;
    Ok(())
}

#[test]
fn an_image_file_is_made_and_gets_a_file_system(rt: HostRuntime) -> Result<(), Fail> {
    let path = "zenfs_making_test.img";
    let image = "--image=zenfs_making_test.img";
    let _ = fs::remove_file(&rt, path);
    let shape = [
        "mkimage",
        image,
        "--block=512",
        "--zone_blocks=16",
        "--capacity=16",
        "--zones=32",
        "--active=6",
    ];
    let (status, out, err) = said(rt, &shape)?;
    assert_eq!(rt; status, Status::Ok);
    let made = b"image created: 32 zones of 8192 bytes\n";
    assert_eq!(rt; out.as_slice(), made.as_slice());
    assert_eq!(rt; err.len(), 0);
    assert_eq!(rt; fs::read(&rt, path)?.len(), 270_336);
    let (status, out, _) = said(rt, &["mkfs", image, "--aux_path=/aux"])?;
    assert_eq!(rt; status, Status::Ok);
    let created = b"ZenFS file system created. Free space: 237568 bytes\n";
    assert_eq!(rt; out.as_slice(), created.as_slice());
    let (status, out, _) = listed(rt, image)?;
    assert_eq!(rt; status, Status::Ok);
    assert_eq!(rt; out.len(), 0);
    fs::remove_file(&rt, path)?;
    Ok(())
}
