//! Cases.

/// A file of a case.
#[derive(Drop)]
pub(crate) struct CaseFile {
    pub(crate) name: String,
    pub(crate) bytes: Vec<u8>,
}

/// A way to run a case: the most bytes of a call, and the numbers of the calls on the files, on the output and on the fault
/// text that fail, counted from 1. No call has the number 0.
#[derive(Clone, Copy)]
pub(crate) struct Way {
    pub(crate) most: u32,
    pub(crate) read: u32,
    pub(crate) write: u32,
    pub(crate) tell: u32,
}

/// A case: words over files, and what each run over them must leave.
#[derive(Drop)]
pub(crate) struct Case {
    pub(crate) name: String,
    pub(crate) words: Vec<String>,
    pub(crate) files: Vec<CaseFile>,
    pub(crate) ways: Vec<Way>,
    pub(crate) status: u8,
    pub(crate) out: Vec<u8>,
    pub(crate) err: Vec<u8>,
}

/// The notes at the head of a bundle, a line each, and its cases.
#[derive(Drop)]
pub(crate) struct Bundle {
    pub(crate) notes: Vec<String>,
    pub(crate) cases: Vec<Case>,
}

/// The ways to run a case that names none.
pub(crate) const USUAL_WAYS: [Way; 4] = [
    Way {
        most: 1,
        read: 0,
        write: 0,
        tell: 0,
    },
    Way {
        most: 2,
        read: 0,
        write: 0,
        tell: 0,
    },
    Way {
        most: 3,
        read: 0,
        write: 0,
        tell: 0,
    },
    Way {
        most: 1_000_000,
        read: 0,
        write: 0,
        tell: 0,
    },
];
