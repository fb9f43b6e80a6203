use query_model::places::BadPlace;

/// What a processor answers to `prepare`.
#[derive(Clone, Copy, Debug, PartialEq, Eq)]
pub enum Status {
    /// It needs data at an input.
    NeedData,
    /// An output is full or not needed.
    PortFull,
    /// `work` may be called.
    Ready,
    /// `schedule` may be called, and then `work`.
    Async,
    /// `expand` must be called.
    ExpandPipeline,
    /// Nothing is left to do.
    Finished,
}

/// What a processor answers to `schedule`: `work` may be called, or `schedule` once more.
#[derive(Clone, Copy, PartialEq, Eq)]
pub enum Wake {
    Ready,
    Later,
}

/// The last answer of a processor.
#[derive(Clone, Copy, PartialEq, Eq)]
pub enum Answer {
    Prepared(Status),
    Scheduled(Wake),
}

/// Why a processor was not loaded.
#[derive(Clone, Copy, PartialEq, Eq)]
pub enum LoadRefusal {
    NotBlank,
    WrongKind,
    Memory,
}

/// Why a processor can't go on. `BadList` has the number of the line.
#[derive(Clone, Copy, Debug, PartialEq, Eq)]
pub enum WorkFault {
    Memory,
    Read,
    /// The reader had nothing to give 1,000,000 times since `load`.
    Stalled,
    /// The reader gave more than 1,073,741,824 bytes since `load`.
    TooLong,
    Bad(BadPlace),
    BadList(u64),
}
