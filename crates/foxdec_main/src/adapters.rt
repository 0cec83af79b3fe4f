// The outside itself: the system's files by their names, and its streams. They tell no content.
ghost use Rattle.std.specs.Prelude.{◌≡◌, None, IfOk};

use std::alloc::{AllocError, Global};
use std::io::{Read, Seek, SeekFrom, Write};
use std::rt::Files;
use std::{fs, io};
use wire_io::{Failed, Shelf, Sink};

/// The most bytes of one read.
const PIECE: usize = 65536;

/// Files by their names. It keeps the file that it read last, and reads on from its place.
#[derive(Drop)]
pub struct FileShelf<'a, R: Files> {
    rt: &'a R,
    alloc: Global,
    open: Option<OpenFile<R::File>>,
    piece: Vec<u8>,
    faults: u64,
    starved: bool,
}

impl<'a, R: Files> FileShelf<'a, R> {
    pub fn new(alloc: Global, rt: &'a R) -> Result<Self, AllocError>
        ensures { IfOk result (λ s. s.faults ≡ 0) }
    {
        Ok(FileShelf {
            rt,
            alloc,
            open: None,
            piece: vec![in alloc; 0; PIECE]?,
            faults: 0,
            starved: false,
        })
    }

    /// Whether a read failed for want of memory.
    pub fn is_starved(&self) -> bool
        ensures { result ≡ self.now.starved }
    {
        self.starved
    }
}

impl<R: Files> Shelf for FileShelf<'_, R> {
    ghost file = { λ _ _. None };

    ghost faults = { λ s _. s.faults };

    fn read_at(&mut self, name: &str, place: u64, into: &mut [u8]) -> Result<u64, Failed> {
        let read = read_piece(
            self.alloc,
            self.rt,
            &mut self.open,
            name,
            place,
            &mut self.piece,
            into.len(),
        );
        match read {
            Ok(count) => {
                let count = count.min(into.len()).min(self.piece.len());
                into[..count].copy_from_slice(&self.piece[..count]);
                Ok(count as u64)
            }
            Err(error) => {
                self.faults = self.faults.saturating_add(1);
                self.starved = self.starved || error.kind() == io::ErrorKind::OutOfMemory;
                Err(Failed)
            }
        }
    }
}

// Reads at most so many bytes, on from where the file stands. It is opened anew where another one
// was read last or an earlier place is asked, and closed where it failed.
fn read_piece<R: Files>(
    alloc: Global,
    rt: &R,
    open: &mut Option<OpenFile<R::File>>,
    name: &str,
    place: u64,
    piece: &mut [u8],
    most: usize,
) -> io::Result<usize> {
    let mut file = match open.take() {
        Some(file) if file.name.as_str() == name && file.place <= place => file,
        _ => OpenFile {
            name: String::from_str(alloc, name)?,
            file: fs::open(rt, name)?,
            place: 0,
        },
    };
    let count = file.read(place, piece, most)?;
    *open = Some(file);
    Ok(count)
}

// A file that is being read, and the place that it stands at.
#[derive(Drop)]
struct OpenFile<F> {
    name: String,
    file: F,
    place: u64,
}

impl<F: Read + Seek> OpenFile<F> {
    // Reads at most so many bytes from a place on that is not before the file's own.
    fn read(&mut self, place: u64, piece: &mut [u8], most: usize) -> io::Result<usize> {
        if self.place < place {
            self.place = self.file.seek(SeekFrom::Start(place))?;
        }
        let size = piece.len().min(most);
        let count = self.file.read(&mut piece[..size])?;
        self.place = self.place.saturating_add(count as u64);
        Ok(count)
    }
}

/// A stream of the system.
#[derive(Drop)]
pub struct StreamSink<W> {
    inner: W,
    faults: u64,
    stalls: u64,
}

impl<W: Write> StreamSink<W> {
    pub fn new(inner: W) -> Self
        ensures faults { result.faults ≡ 0 }
        ensures stalls { result.stalls ≡ 0 }
    {
        StreamSink {
            inner,
            faults: 0,
            stalls: 0,
        }
    }
}

impl<W: Write> Sink for StreamSink<W> {
    ghost written = { λ _. None };

    ghost faults = { λ s. s.faults };

    ghost stalls = { λ s. s.stalls };

    ghost room = { λ _. None };

    fn put(&mut self, piece: &[u8]) -> Result<u64, Failed> {
        match self.inner.write(piece) {
            Ok(count) => {
                if count == 0 {
                    self.stalls = self.stalls.saturating_add(1);
                }
                Ok(count as u64)
            }
            Err(_) => {
                self.faults = self.faults.saturating_add(1);
                Err(Failed)
            }
        }
    }
}
