// The real files and streams, the trusted edge: no contract can say what they hold, so they tell
// nothing. What is proved of them is when they refuse, and that each refusal is counted.

ghost use Rattle.std.specs.Prelude.{◌≡◌, ◌⊎◌, ◌<◌, ◌≤◌, ◌-◌, ◌^◌, None, Err, IfOk, IfErr, IfSome, length};
ghost use Rattle.ciel_io.specs.Reads.{IfTooLong};

use crate::files::{FileRefusal, Files};
use crate::sink::{Failed, Sink};
use sky_base::text::{Bytes, Memory, Txt};
use std::alloc::Global;
use std::fs::OpenFile;
use std::io::{ErrorKind, Read, Stderr, Stdout};
use std::{fs, io, rt};

/// The files that the runtime reaches.
#[derive(Drop)]
pub struct HostFiles<R: rt::Files> {
    rt: R,
    faults: u64,
}

impl<R: rt::Files> HostFiles<R> {
    /// The runtime's files, with no fault so far.
    pub fn new(rt: R) -> HostFiles<R>
        ensures { ⟦<HostFiles<R> as Files>⟧.faults result ≡ 0 }
    {
        HostFiles { rt, faults: 0 }
    }

    fn load(&self, alloc: Global, path: &Txt, limit: u64) -> Result<Bytes, FileRefusal>
        requires { limit < 2 ^ 64 - 1 }
        ensures within { IfOk result (λ b. length b ≤ limit) }
        ensures too_long { IfErr result (λ e. IfTooLong e (λ at. at ≡ limit)) }
    {
        match fs::open(&self.rt, path.as_str()) {
            Ok(file) => {
                let expected = length_of(&file);
                read_limited(alloc, file, limit, expected)
            }
            Err(e) => Err(refusal_of(&e)),
        }
    }
}

impl<R: rt::Files> Files for HostFiles<R> {
    ghost content = { λ _ _. None };

    ghost asked = { λ _. None };

    ghost faults = { λ f. f.faults };

    fn read(&mut self, alloc: Global, path: &Txt, limit: u64) -> Result<Bytes, FileRefusal> {
        let answer = self.load(alloc, path, limit);
        if matches!(answer, Err(FileRefusal::Failed)) {
            self.faults = self.faults.saturating_add(1);
        }
        answer
    }
}

/// Want of memory is told apart from any other failure.
fn refusal_of(e: &io::Error) -> FileRefusal
    ensures { (result ≡ FileRefusal.Memory) ⊎ (result ≡ FileRefusal.Failed) }
{
    if e.kind() == ErrorKind::OutOfMemory {
        FileRefusal::Memory
    } else {
        FileRefusal::Failed
    }
}

/// How many bytes a file says that it has, or none where it doesn't tell. What is read may be more or less.
fn length_of<F: OpenFile>(file: &F) -> u64 {
    match file.metadata() {
        Ok(metadata) => metadata.len(),
        Err(_) => 0,
    }
}

/// All bytes that a reader has left, where they are at most `limit`. It takes at most one byte more
/// than the limit, and refuses a longer reader only after it has taken that byte. Room is made at once for
/// so many bytes as are expected, within the limit, and for the one that would be too many.
pub fn read_limited<R: Read + Drop>(
    alloc: Global,
    reader: R,
    limit: u64,
    expected: u64,
) -> Result<Bytes, FileRefusal>
    requires { limit < 2 ^ 64 - 1 }
    ensures found { IfOk result (λ b. IfSome (R.remaining reader) (λ left. b ≡ left)) }
    ensures within { IfOk result (λ b. length b ≤ limit) }
    ensures too_long { IfErr result (λ e. IfTooLong e (λ at. at ≡ limit)) }
    ensures beyond { IfErr result (λ e.
        IfTooLong e (λ at. IfSome (R.remaining reader) (λ left. at < length left))) }
{
    let room = expected.min(limit) + 1;
    let Ok(mut bytes) = Vec::with_capacity(alloc, room as usize) else {
        return Err(FileRefusal::Memory);
    };
    match reader.take(limit + 1).read_to_end(&mut bytes) {
        Ok(_) => {}
        Err(e) => return Err(refusal_of(&e)),
    }
    if bytes.len() as u64 > limit {
        return Err(FileRefusal::TooLong { limit });
    }
    match Bytes::new(alloc, bytes) {
        Ok(bytes) => Ok(bytes),
        Err(Memory) => Err(FileRefusal::Memory),
    }
}

/// A stream of the process that bytes are written to.
#[derive(Drop)]
pub struct HostStream<P: Print> {
    stream: P,
    faults: u64,
}

/// Standard output.
pub type HostOut = HostStream<Stdout>;

/// Standard error.
pub type HostErr = HostStream<Stderr>;

impl<P: Print> HostStream<P> {
    /// The stream, with no fault so far.
    pub fn new(stream: P) -> HostStream<P>
        ensures { ⟦<HostStream<P> as Sink>⟧.faults result ≡ 0 }
    {
        HostStream { stream, faults: 0 }
    }
}

impl<P: Print> Sink for HostStream<P> {
    ghost written = { λ _. None };

    ghost faults = { λ s. s.faults };

    /// A stream that takes nothing of a piece that isn't empty has failed.
    fn put(&mut self, piece: &[u8]) -> Result<(), Failed> {
        match self.stream.write_all(piece) {
            Ok(()) => Ok(()),
            Err(_) => {
                self.faults = self.faults.saturating_add(1);
                Err(Failed)
            }
        }
    }
}
