// Files on a disk: that an open keeps each byte, what is missing stays missing, and nobody else has a file that is changed.
use image_backend::{Access, ByteFile, DiskFile};
use std::fs;
use std::os::unix::fs::symlink;
use std::process::Abort;
use std::test::Fail;

// The file of a path on a disk.
fn disk_file(rt: HostRuntime, path: &str, access: Access) -> Result<DiskFile<HostRuntime>, Fail> {
    let path = String::from_str(rt.alloc(), path)?;
    Ok(DiskFile::new(rt, path, access))
}

// Makes a file of a path anew, with six bytes in it.
fn make_anew(abort: &impl Abort, rt: HostRuntime, path: &str) -> Result<(), Fail> {
    let _ = fs::remove_file(&rt, path);
    let mut file = disk_file(rt, path, Access::Change)?;
    assert_eq!(abort; file.open(), Ok(false));
    assert_eq!(abort; file.create(), Ok(()));
    assert_eq!(abort; file.set_len(6), Ok(()));
    assert_eq!(abort; file.write_at(2, b"abc"), Ok(()));
    assert_eq!(abort; file.sync(), Ok(()));
    Ok(())
}

// Whether a file of a path can be opened, as one that was.
fn opens(rt: HostRuntime, path: &str, access: Access) -> Result<bool, Fail> {
    Ok(disk_file(rt, path, access)?.open() == Ok(true))
}

#[test]
fn a_file_on_a_disk_gives_back_what_was_synced(rt: HostRuntime) -> Result<(), Fail> {
    let path = "synced_test.img";
    make_anew(&rt, rt, path)?;
    let mut again = disk_file(rt, path, Access::Read)?;
    assert_eq!(rt; again.open(), Ok(true));
    assert_eq!(rt; again.len(), Ok(6));
    let mut read = [0; 6];
    assert_eq!(rt; again.read_at(0, &mut read), Ok(()));
    assert_eq!(rt; &read, b"\0\0abc\0");
    fs::remove_file(&rt, path)?;
    Ok(())
}

#[test]
fn an_open_keeps_each_byte_and_a_write_lands_at_its_place(rt: HostRuntime) -> Result<(), Fail> {
    let path = "kept_test.img";
    make_anew(&rt, rt, path)?;
    assert_eq!(rt; opens(rt, path, Access::Read)?, true);
    assert_eq!(rt; opens(rt, path, Access::Change)?, true);
    assert_eq!(rt; fs::read(&rt, path)?.as_slice(), b"\0\0abc\0".as_slice());

    let mut file = disk_file(rt, path, Access::Change)?;
    assert_eq!(rt; file.open(), Ok(true));
    assert_eq!(rt; file.len(), Ok(6));
    assert_eq!(rt; file.write_at(4, b"de"), Ok(()));
    assert_eq!(rt; fs::read(&rt, path)?.as_slice(), b"\0\0abde".as_slice());
    fs::remove_file(&rt, path)?;
    Ok(())
}

#[test]
fn a_missing_file_stays_missing(rt: HostRuntime) -> Result<(), Fail> {
    let path = "missing_test.img";
    let _ = fs::remove_file(&rt, path);
    for access in [Access::Read, Access::Change] {
        let mut file = disk_file(rt, path, access)?;
        assert_eq!(rt; file.open(), Ok(false));
        assert_eq!(rt; fs::exists(&rt, path)?, false);
    }
    Ok(())
}

#[test]
fn a_file_that_cant_be_opened_is_refused_and_not_missing(rt: HostRuntime) -> Result<(), Fail> {
    let path = "unreadable_test.img";
    make_anew(&rt, rt, path)?;
    // No folder is there for this name to be in, which holds of root too.
    for access in [Access::Read, Access::Change] {
        let mut file = disk_file(rt, "unreadable_test.img/image", access)?;
        assert!(rt; file.open().is_err());
    }
    fs::remove_file(&rt, path)?;
    Ok(())
}

#[test]
fn a_file_that_cant_be_written_is_read(rt: HostRuntime) -> Result<(), Fail> {
    // Nobody may write a program that runs, not even root.
    let path = "/proc/self/exe";
    assert_eq!(rt; opens(rt, path, Access::Read)?, true);
    let mut file = disk_file(rt, path, Access::Change)?;
    assert!(rt; file.open().is_err());
    Ok(())
}

#[test]
fn a_file_is_changed_by_one_alone(rt: HostRuntime) -> Result<(), Fail> {
    let path = "changed_test.img";
    make_anew(&rt, rt, path)?;
    {
        let mut first = disk_file(rt, path, Access::Change)?;
        assert_eq!(rt; first.open(), Ok(true));
        assert_eq!(rt; opens(rt, path, Access::Change)?, false);
        assert_eq!(rt; opens(rt, path, Access::Read)?, false);
    }
    assert_eq!(rt; opens(rt, path, Access::Change)?, true);
    fs::remove_file(&rt, path)?;
    Ok(())
}

#[test]
fn a_file_is_read_by_many(rt: HostRuntime) -> Result<(), Fail> {
    let path = "read_test.img";
    make_anew(&rt, rt, path)?;
    let mut first = disk_file(rt, path, Access::Read)?;
    assert_eq!(rt; first.open(), Ok(true));
    assert_eq!(rt; opens(rt, path, Access::Read)?, true);
    assert_eq!(rt; opens(rt, path, Access::Change)?, false);
    fs::remove_file(&rt, path)?;
    Ok(())
}

#[test]
fn what_somebody_made_meanwhile_is_left_alone(rt: HostRuntime) -> Result<(), Fail> {
    let path = "meanwhile_test.img";
    let _ = fs::remove_file(&rt, path);
    let mut late = disk_file(rt, path, Access::Change)?;
    assert_eq!(rt; late.open(), Ok(false));
    make_anew(&rt, rt, path)?;
    assert_eq!(rt; late.open(), Ok(false));
    assert!(rt; late.create().is_err());
    assert_eq!(rt; fs::read(&rt, path)?.as_slice(), b"\0\0abc\0".as_slice());
    fs::remove_file(&rt, path)?;
    Ok(())
}

#[test]
fn the_file_behind_a_link_is_made_and_taken_away(rt: HostRuntime) -> Result<(), Fail> {
    let path = "made_test.img";
    let link = "made_test.link";
    let _ = fs::remove_file(&rt, path);
    let _ = fs::remove_file(&rt, link);
    symlink(&rt, path, link)?;
    let mut file = disk_file(rt, link, Access::Change)?;
    assert_eq!(rt; file.open(), Ok(false));
    assert_eq!(rt; file.create(), Ok(()));
    assert_eq!(rt; fs::exists(&rt, path)?, true);
    file.remove();
    assert_eq!(rt; fs::exists(&rt, path)?, false);
    fs::remove_file(&rt, link)?;
    Ok(())
}
