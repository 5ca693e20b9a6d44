use command_words::{BadWords, Command, image_path, read};
use std::alloc::{AllocError, Global};
use std::test::Fail;
use zone_image::Geometry;

const SHAPE: Geometry = Geometry {
    block: 512,
    zone_blocks: 16,
    capacity: 16,
    zones: 32,
    active_limit: 4294967295,
};

// Lines with the commands that they are.
const READ: [(&str, Command<'static>); 19] = [
    (
        "mkimage --image=i --block=512 --zone_blocks=16 --capacity=16 --zones=32 --active=4294967295",
        Command::MakeImage {
            image: "i",
            geometry: SHAPE,
            force: false,
        },
    ),
    (
        "mkimage --force --active 4294967295 --zones 32 --capacity 16 --zone_blocks 16 --block 512 --image i",
        Command::MakeImage {
            image: "i",
            geometry: SHAPE,
            force: true,
        },
    ),
    (
        "mkfs --image=i --aux_path=/aux",
        Command::MakeFs {
            image: "i",
            aux_path: "/aux",
            finish_threshold: 0,
            collect: false,
            force: false,
        },
    ),
    (
        "mkfs --enable_gc --finish_threshold=100 --aux_path /aux --force --image i",
        Command::MakeFs {
            image: "i",
            aux_path: "/aux",
            finish_threshold: 100,
            collect: true,
            force: true,
        },
    ),
    (
        "list --image=i",
        Command::ListFiles {
            image: "i",
            prefix: None,
        },
    ),
    (
        "list --path db --image i",
        Command::ListFiles {
            image: "i",
            prefix: Some("db"),
        },
    ),
    (
        "list --image=-i=j",
        Command::ListFiles {
            image: "-i=j",
            prefix: None,
        },
    ),
    (
        "list --image=i --path=../x",
        Command::ListFiles {
            image: "i",
            prefix: Some("../x"),
        },
    ),
    ("df --image=i", Command::ShowSpace { image: "i" }),
    ("df --image i", Command::ShowSpace { image: "i" }),
    ("dump --image=i", Command::Dump { image: "i" }),
    ("fs-info --image=i", Command::ShowInfo { image: "i" }),
    (
        "backup --image=i --path=o",
        Command::Backup {
            image: "i",
            directory: "o",
            prefix: None,
        },
    ),
    (
        "backup --backup_path=db --image=i --path=o",
        Command::Backup {
            image: "i",
            directory: "o",
            prefix: Some("db"),
        },
    ),
    (
        "restore --image=i --path=o",
        Command::Restore {
            image: "i",
            directory: "o",
            prefix: None,
        },
    ),
    (
        "restore --image=i --path=o --restore_path db",
        Command::Restore {
            image: "i",
            directory: "o",
            prefix: Some("db"),
        },
    ),
    (
        "link --image=i --src_file=a --dst_file=b",
        Command::LinkFile {
            image: "i",
            source: "a",
            target: "b",
        },
    ),
    (
        "rename --dst_file=b --src_file=a --image=i",
        Command::RenameFile {
            image: "i",
            source: "a",
            target: "b",
        },
    ),
    (
        "delete --image=i --path=a",
        Command::DeleteFile {
            image: "i",
            path: "a",
        },
    ),
];

// Lines that are no command.
const REFUSED: [&str; 33] = [
    "",
    "list",
    "format --image=i",
    "List --image=i",
    "list --image=",
    "list --image",
    "list --image -i",
    "list --image=i --image=i",
    "list --image=i --image i",
    "list --image=i x",
    "list x --image=i",
    "list --image=i --",
    "list --ima=i",
    "list -i i",
    "list --help",
    "list --image=i --force",
    "list --image=i --path=",
    "list --image=i ",
    "df --image=i --path=a",
    "mkfs --image=i",
    "mkfs --image=i --aux_path=/aux --force=1",
    "mkfs --image=i --aux_path=/aux --force --force",
    "mkfs --image=i --aux_path=/aux --finish_threshold=101",
    "mkfs --image=i --aux_path=/a\u{7f}",
    "mkimage --image=i --block=512 --zone_blocks=16 --capacity=16 --zones=32",
    "mkimage --image=i --block=0512 --zone_blocks=16 --capacity=16 --zones=32 --active=6",
    "mkimage --image=i --block=4294967296 --zone_blocks=16 --capacity=16 --zones=32 --active=6",
    "mkimage --image=i --block=00000000512 --zone_blocks=16 --capacity=16 --zones=32 --active=6",
    "mkimage --image=i --block=5x --zone_blocks=16 --capacity=16 --zones=32 --active=6",
    "mkimage --image=i --block=+5 --zone_blocks=16 --capacity=16 --zones=32 --active=6",
    "link --image=i --src_file=a",
    "delete --image=i",
    "backup --image=i --path=o --restore_path=db",
];

// The words of a line.
fn words_of(alloc: Global, line: &str) -> Result<Vec<String>, AllocError> {
    let mut words = Vec::new(alloc);
    for word in line.split(' ') {
        words.push(String::from_str(alloc, word)?)?;
    }
    Ok(words)
}

// Whether the words of a line are this command, and name its image.
fn reads_as(alloc: Global, line: &str, wanted: &Command<'_>) -> Result<bool, AllocError> {
    let words = words_of(alloc, line)?;
    let is_read = read(&words) == Ok(*wanted);
    Ok(is_read && image_path(&words) == Some(wanted.image()))
}

// Whether the words of a line are no command, and name no image.
fn is_refused(alloc: Global, line: &str) -> Result<bool, AllocError> {
    let words = words_of(alloc, line)?;
    let is_bad = read(&words) == Err(BadWords);
    Ok(is_bad && image_path(&words).is_none())
}

#[test]
fn each_command_is_read_with_its_values(rt: HostRuntime) -> Result<(), Fail> {
    for (line, wanted) in &READ {
        assert!(rt; reads_as(rt.alloc(), line, wanted)?, "{line}");
    }
    Ok(())
}

#[test]
fn malformed_lines_are_refused(rt: HostRuntime) -> Result<(), Fail> {
    for line in REFUSED {
        assert!(rt; is_refused(rt.alloc(), line)?, "{line}");
    }
    Ok(())
}

#[test]
fn no_words_are_no_command(rt: HostRuntime) {
    assert_eq!(rt; read(&[]), Err(BadWords));
    assert_eq!(rt; image_path(&[]), None);
}
