// What a reader finds next in a log.
use record_model::Payload;

/// What a reader finds next in a log.
#[derive(Debug, Drop)]
pub enum LogItem {
    /// The payload of the record that begins in this block.
    Payload {
        block: u32,
        bytes: Payload,
    },
    /// No block is left.
    Clean,
    /// The record that begins in this block states more blocks than are left.
    Torn {
        block: u32,
    },
    /// The record that begins in this block states no length, or its checksum isn't the computed one.
    /// Checksums are as they are stored, under their mask.
    Bad {
        block: u32,
        len: u32,
        stored: u32,
        computed: u32,
    },
}

/// How the records of a zone end.
#[derive(Clone, Copy, Debug, PartialEq, Eq)]
pub enum LogEnd {
    Clean,
    Torn {
        block: u32,
    },
    Bad {
        block: u32,
        len: u32,
        stored: u32,
        computed: u32,
    },
}

/// What a reader finds at a block: a whole record of so many blocks, or the end.
#[derive(Debug, Drop)]
pub enum Found {
    Record { count: u32, bytes: Payload },
    End(LogEnd),
}
