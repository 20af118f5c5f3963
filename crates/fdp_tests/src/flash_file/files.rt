//! Files for tests: bytes in memory, and a file whose calls fail.

use std::cell::{Cell, RefCell};
use std::io;
use std::io::{Cursor, ErrorKind, Read, Seek, SeekFrom, Write};
use std::os::unix::fs::FileExt;

/// Bytes in memory that are read and written as a file.
#[derive(Drop)]
pub struct Bytes {
    bytes: RefCell<Cursor<Vec<u8>>>,
}

impl Bytes {
    pub fn new(bytes: Vec<u8>) -> Bytes {
        Bytes {
            bytes: RefCell::new(Cursor::new(bytes)),
        }
    }

    pub fn into_vec(self) -> Vec<u8> {
        self.bytes.into_inner().into_inner()
    }
}

impl FileExt for Bytes {
    fn read_at(&self, buf: &mut [u8], offset: u64) -> io::Result<usize> {
        match self.bytes.try_borrow_mut() {
            Ok(mut bytes) => {
                bytes.seek(SeekFrom::Start(offset))?;
                bytes.read(buf)
            }
            Err(_) => Err(ErrorKind::Other.into()),
        }
    }

    fn write_at(&self, buf: &[u8], offset: u64) -> io::Result<usize> {
        match self.bytes.try_borrow_mut() {
            Ok(mut bytes) => {
                bytes.seek(SeekFrom::Start(offset))?;
                bytes.write(buf)
            }
            Err(_) => Err(ErrorKind::Other.into()),
        }
    }
}

impl Seek for Bytes {
    fn seek(&mut self, to: SeekFrom) -> io::Result<u64> {
        self.bytes.get_mut().seek(to)
    }
}

/// A file one of whose calls fails, on a disk that takes only so many bytes more.
#[derive(Drop)]
pub struct Failing<S> {
    pub file: S,
    /// The calls up to the one that fails, that one too; with 0 none fails.
    pub calls: Cell<u32>,
    /// Whether each call behind that one fails too, so that it makes no difference whether the program goes on.
    pub stopped: Cell<bool>,
    pub room: Cell<usize>,
}

impl<S> Failing<S> {
    pub fn new(file: S) -> Failing<S> {
        Failing {
            file,
            calls: Cell::new(0),
            stopped: Cell::new(false),
            room: Cell::new(usize::MAX),
        }
    }

    fn count(&self) -> io::Result<()> {
        match self.calls.get() {
            0 => Ok(()),
            1 => {
                if !self.stopped.get() {
                    self.calls.set(0);
                }
                Err(ErrorKind::Other.into())
            }
            more => {
                self.calls.set(more - 1);
                Ok(())
            }
        }
    }
}

impl<S: FileExt> FileExt for Failing<S> {
    fn read_at(&self, buf: &mut [u8], offset: u64) -> io::Result<usize> {
        self.count()?;
        self.file.read_at(buf, offset)
    }

    fn write_at(&self, buf: &[u8], offset: u64) -> io::Result<usize> {
        self.count()?;
        let room = self.room.get();
        let fits = buf.len().min(room);
        if fits == 0 {
            return Err(ErrorKind::StorageFull.into());
        }
        let put = self.file.write_at(&buf[..fits], offset)?;
        self.room.set(room - put);
        Ok(put)
    }
}

impl<S: Seek> Seek for Failing<S> {
    fn seek(&mut self, to: SeekFrom) -> io::Result<u64> {
        self.count()?;
        self.file.seek(to)
    }
}
