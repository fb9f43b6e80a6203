use chunk_data::Bytes;

/// What a read gave: so many bytes at the front of the buffer, the file's end, or nothing yet.
#[derive(Clone, Copy, PartialEq, Eq, Drop)]
pub enum Got {
    Bytes(usize),
    End,
    Pending,
}

/// A call failed, and its count of faults rose.
#[derive(Clone, Copy, PartialEq, Eq, Drop)]
pub struct Failed;

/// Not all bytes were written, since a write failed.
#[derive(Clone, Copy, PartialEq, Eq, Drop)]
pub struct WriteFault;

/// A file in memory.
#[derive(Drop)]
pub struct FileEntry {
    pub path: Bytes,
    pub bytes: Bytes,
}

/// What a call does in place of its work: it fails, or finds nothing yet.
#[derive(Clone, Copy, PartialEq, Eq, Drop)]
pub enum FakeKind {
    Fail,
    Pend,
}

/// A call of a script; calls are numbered from 1.
#[derive(Clone, Copy, PartialEq, Eq, Drop)]
pub struct Fake {
    pub call: u64,
    pub kind: FakeKind,
}
