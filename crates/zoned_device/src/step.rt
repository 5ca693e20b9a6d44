// One change of an image in memory, as it is kept.
#[derive(Clone, Copy)]
pub(crate) struct Step {
    pub(crate) tick: u64,
    pub(crate) zone: u32,
    pub(crate) kind: Kind,
}

#[derive(Clone, Copy)]
pub(crate) enum Kind {
    /// So many blocks, whose bytes stand at this offset in the record's buffer.
    Append { from: usize, count: u32 },
    Finish,
    Reset,
    Sync,
}
