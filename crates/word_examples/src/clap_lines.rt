use clap_words::read;
use command_words::Command;
use std::alloc::{AllocError, Global};
use std::test::Fail;
use zone_image::Geometry;

const SHAPE: Geometry = Geometry {
    block: 512,
    zone_blocks: 16,
    capacity: 15,
    zones: 32,
    active_limit: 4294967295,
};

// Each command as one line with equals signs, as one with values in words of their own, and as it is.
const READ: [(&str, &str, Command<'static>); 13] = [
    (
        "mkimage --image=i --block=512 --zone_blocks=16 --capacity=15 --zones=32 --active=4294967295",
        "mkimage --active 4294967295 --zones 32 --capacity 15 --zone_blocks 16 --block 512 --image i",
        Command::MakeImage {
            image: "i",
            geometry: SHAPE,
            force: false,
        },
    ),
    (
        "mkimage --image=i --block=512 --zone_blocks=16 --capacity=15 --zones=32 --active=4294967295 --force",
        "mkimage --force --active 4294967295 --zones 32 --capacity 15 --zone_blocks 16 --block 512 --image i",
        Command::MakeImage {
            image: "i",
            geometry: SHAPE,
            force: true,
        },
    ),
    (
        "mkfs --image=i --aux_path=/aux",
        "mkfs --aux_path /aux --image i",
        Command::MakeFs {
            image: "i",
            aux_path: "/aux",
            finish_threshold: 0,
            collect: false,
            force: false,
        },
    ),
    (
        "mkfs --image=i --aux_path=/aux --finish_threshold=7 --enable_gc",
        "mkfs --enable_gc --finish_threshold 7 --aux_path /aux --image i",
        Command::MakeFs {
            image: "i",
            aux_path: "/aux",
            finish_threshold: 7,
            collect: true,
            force: false,
        },
    ),
    (
        "list --image=-i=j",
        "list --image=-i=j",
        Command::ListFiles {
            image: "-i=j",
            prefix: None,
        },
    ),
    (
        "list --path=db --image=i",
        "list --path db --image i",
        Command::ListFiles {
            image: "i",
            prefix: Some("db"),
        },
    ),
    (
        "df --image=i",
        "df --image i",
        Command::ShowSpace { image: "i" },
    ),
    (
        "dump --image=i",
        "dump --image i",
        Command::Dump { image: "i" },
    ),
    (
        "backup --image=i --path=o --backup_path=db",
        "backup --backup_path db --path o --image i",
        Command::Backup {
            image: "i",
            directory: "o",
            prefix: Some("db"),
        },
    ),
    (
        "restore --image=i --path=o --restore_path=db",
        "restore --restore_path db --path o --image i",
        Command::Restore {
            image: "i",
            directory: "o",
            prefix: Some("db"),
        },
    ),
    (
        "link --image=i --src_file=a --dst_file=b",
        "link --dst_file b --src_file a --image i",
        Command::LinkFile {
            image: "i",
            source: "a",
            target: "b",
        },
    ),
    (
        "rename --image=i --src_file=a --dst_file=b",
        "rename --dst_file b --src_file a --image i",
        Command::RenameFile {
            image: "i",
            source: "a",
            target: "b",
        },
    ),
    (
        "delete --image=i --path=a",
        "delete --path a --image i",
        Command::DeleteFile {
            image: "i",
            path: "a",
        },
    ),
];

// Lines that are no command, some of which clap alone would take or answer with its help.
const REFUSED: [&str; 7] = [
    "",
    "list --help",
    "list --image=",
    "list --image=i --image=i",
    "list --image=i --",
    "help",
    "fs-info --image=i --version",
];

// The words of a line.
fn words_of(alloc: Global, line: &str) -> Result<Vec<String>, AllocError> {
    let mut words = Vec::new(alloc);
    for word in line.split(' ') {
        words.push(String::from_str(alloc, word)?)?;
    }
    Ok(words)
}

// Whether a line is this command.
fn reads_as(alloc: Global, line: &str, wanted: &Command<'_>) -> Result<bool, AllocError> {
    let words = words_of(alloc, line)?;
    let command = read(alloc, &words)?;
    Ok(command == Some(*wanted))
}

// Whether a line is no command.
fn is_refused(alloc: Global, line: &str) -> Result<bool, AllocError> {
    let words = words_of(alloc, line)?;
    let command = read(alloc, &words)?;
    Ok(command.is_none())
}

#[test]
fn each_command_is_read_in_both_spellings(rt: HostRuntime) -> Result<(), Fail> {
    for (joined, apart, wanted) in &READ {
        assert!(rt; reads_as(rt.alloc(), joined, wanted)?, "{joined}");
        assert!(rt; reads_as(rt.alloc(), apart, wanted)?, "{apart}");
    }
    assert!(rt;
        reads_as(
            rt.alloc(),
            "fs-info --image i",
            &Command::ShowInfo { image: "i" }
        )?
    );
    Ok(())
}

#[test]
fn other_lines_are_no_command(rt: HostRuntime) -> Result<(), Fail> {
    for line in REFUSED {
        assert!(rt; is_refused(rt.alloc(), line)?, "{line}");
    }
    Ok(())
}
