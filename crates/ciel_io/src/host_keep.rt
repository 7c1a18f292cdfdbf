// Real files that are kept: the trusted edge, which tells nothing. What is proved of it is that each refusal is counted.

ghost use Rattle.std.specs.Prelude.{◌≡◌, ◌≤◌, None, IfOk, IfSome, length};

use crate::keep::Keep;
use crate::sink::Failed;
use crate::standing::standing;
use sky_base::text::Txt;
use std::fs::OpenOptions;
use std::io::Write;
use std::{fs, io, rt};

// The file that was appended to last, which is open still.
#[derive(Drop)]
struct Opened<F: Drop> {
    path: Txt,
    file: F,
}

/// The files that the runtime reaches, kept. The file of an append stays open for the next one, until an append to another file, a
/// replacement or a failure.
#[derive(Drop)]
pub struct HostKeep<R: rt::Files> {
    rt: R,
    faults: u64,
    opened: Option<Opened<R::File>>,
}

impl<R: rt::Files> HostKeep<R> {
    /// The runtime's files, with no fault so far.
    pub fn new(rt: R) -> HostKeep<R>
        ensures { ⟦<HostKeep<R> as Keep>⟧.faults result ≡ 0 }
    {
        HostKeep {
            rt,
            faults: 0,
            opened: None,
        }
    }

    // The file at a path, open: that of the append before, where it was at this path.
    fn take_opened(&mut self, path: &Txt) -> io::Result<R::File>
        ensures { self.new.faults ≡ self.old.faults }
    {
        match self.opened.take() {
            Some(opened) if &opened.path == path => Ok(opened.file),
            _ => OpenOptions::new()
                .append(true)
                .create(true)
                .open(&self.rt, path.as_str()),
        }
    }

    // How many bytes of the piece the file at a path has already, where it has nothing else. A pipe or a device isn't read.
    fn length_standing(&self, path: &Txt, piece: &[u8]) -> io::Result<Option<usize>>
        ensures { IfOk result (λ o. IfSome o (λ n. n ≤ length piece.now)) }
    {
        let found = fs::metadata(&self.rt, path.as_str())?;
        if found.is_file() && found.len() > 0 && found.len() <= piece.len() as u64 {
            standing(fs::open(&self.rt, path.as_str())?, piece)
        } else {
            Ok(None)
        }
    }

    // The piece, and nothing else, at a path. Where the piece begins with the file that is there, the rest is put behind it, and no byte is written
    // anew: until that is done the file has no less than it had.
    fn put_instead(&self, path: &Txt, piece: &[u8]) -> io::Result<()> {
        match self.length_standing(path, piece) {
            Ok(Some(at)) => OpenOptions::new()
                .append(true)
                .open(&self.rt, path.as_str())?
                .write_all(&piece[at..]),
            _ => fs::write(&self.rt, path.as_str(), piece),
        }
    }

    // Where the piece isn't put there, no file is open any more.
    fn put_behind(&mut self, path: &Txt, piece: &[u8]) -> io::Result<()>
        ensures { self.new.faults ≡ self.old.faults }
    {
        let mut file = self.take_opened(path)?;
        file.write_all(piece)?;
        if let Ok(path) = path.share() {
            self.opened = Some(Opened { path, file });
        }
        Ok(())
    }
}

impl<R: rt::Files> Keep for HostKeep<R> {
    ghost files = { λ _. None };

    ghost asked = { λ _. None };

    ghost faults = { λ k. k.faults };

    fn append(&mut self, path: &Txt, piece: &[u8]) -> Result<(), Failed> {
        match self.put_behind(path, piece) {
            Ok(()) => Ok(()),
            Err(_) => {
                self.faults = self.faults.saturating_add(1);
                Err(Failed)
            }
        }
    }

    fn replace(&mut self, path: &Txt, piece: &[u8]) -> Result<(), Failed> {
        self.opened = None;
        match self.put_instead(path, piece) {
            Ok(()) => Ok(()),
            Err(_) => {
                self.faults = self.faults.saturating_add(1);
                Err(Failed)
            }
        }
    }
}
