// A run of the program, for the rows.
use remap_io::{MemFiles, MemSink};
use std::alloc::{AllocError, Global};
use std::fmt::{Debug, Display};
use std::process::Abort;
use std::thread::Threads;
use tempest_top::{Status, run};

/// Ends the test where the two differ. A call is cheaper to prove than an assertion in its place.
pub(crate) fn same<T: PartialEq + Debug>(rt: &impl Abort, got: &T, want: &T) {
    assert_eq!(rt; got, want);
}

/// The same, at a place of a table.
pub(crate) fn same_at<T: PartialEq + Debug>(
    rt: &impl Abort,
    got: &T,
    want: &T,
    place: &impl Display,
) {
    assert_eq!(rt; got, want, "at {place}");
}

/// The words of a command line, parted at single spaces.
pub(crate) fn words_of(alloc: Global, text: &str) -> Result<Vec<String>, AllocError> {
    let mut words = Vec::new(alloc);
    for word in text.split(' ') {
        words.push(String::from_str(alloc, word)?)?;
    }
    Ok(words)
}

/// A run over files and sinks in memory.
#[derive(Drop)]
pub struct Run {
    pub files: MemFiles,
    pub out: MemSink,
    pub err: MemSink,
}

impl Run {
    /// Nothing is there, and no call fails.
    pub(crate) fn new(alloc: Global) -> Run {
        Run {
            files: MemFiles::new(alloc, Vec::new(alloc)),
            out: MemSink::new(alloc, Vec::new(alloc)),
            err: MemSink::new(alloc, Vec::new(alloc)),
        }
    }

    /// New sinks, which hold nothing.
    pub(crate) fn renew_sinks(&mut self, alloc: Global) {
        self.out = MemSink::new(alloc, Vec::new(alloc));
        self.err = MemSink::new(alloc, Vec::new(alloc));
    }

    /// Places a file, without a counted call.
    pub(crate) fn place(&mut self, name: &str, bytes: &[u8]) -> Result<(), AllocError> {
        match self.files.put_file(name, bytes) {
            Ok(()) => Ok(()),
            Err(_) => Err(AllocError),
        }
    }

    /// These bytes were put to the output.
    pub(crate) fn puts(&self, rt: &impl Abort, want: &[u8]) {
        assert_eq!(rt; self.out.bytes(), want);
    }

    /// These bytes were put to the error output.
    pub(crate) fn tells(&self, rt: &impl Abort, want: &[u8]) {
        assert_eq!(rt; self.err.bytes(), want);
    }

    /// The named file has these bytes, or isn't there.
    pub(crate) fn holds(&self, rt: &impl Abort, name: &str, want: Option<&[u8]>) {
        assert_eq!(rt; self.files.get(name), want);
    }

    /// Runs the words.
    pub(crate) fn go(
        &mut self,
        rt: &impl Threads,
        alloc: Global,
        text: &str,
    ) -> Result<Status, AllocError> {
        let words = words_of(alloc, text)?;
        Ok(run(
            rt,
            alloc,
            &words,
            &mut self.files,
            &mut self.out,
            &mut self.err,
        ))
    }
}
