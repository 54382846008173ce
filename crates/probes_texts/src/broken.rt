//! Devices that fail, and one that records.

use std::alloc::Global;
use std::io::{self, ErrorKind, Read, Write};

/// A reader that gives bytes, at most so many a call, and then is at its end or fails.
#[derive(Drop)]
pub struct BrokenReader<'a> {
    pub rest: &'a [u8],
    pub most: usize,
    pub fails: bool,
}

impl<'a> BrokenReader<'a> {
    /// Gives all the bytes, as many a call as are asked for, and then fails where that is wanted.
    pub fn new(rest: &'a [u8], fails: bool) -> BrokenReader<'a> {
        BrokenReader {
            rest,
            most: usize::MAX,
            fails,
        }
    }
}

impl<'a> Read for BrokenReader<'a> {
    fn read(&mut self, buf: &mut [u8]) -> io::Result<usize> {
        let count = self.rest.len().min(self.most).min(buf.len());
        if count == 0 && self.fails {
            return Err(io::Error::from(ErrorKind::BrokenPipe));
        }
        let (front, behind) = self.rest.split_at(count);
        buf[..count].copy_from_slice(front);
        self.rest = behind;
        Ok(count)
    }
}

/// A writer that takes so many bytes in all, at most so many a call, and then fails or takes none.
#[derive(Drop)]
pub struct BrokenWriter {
    pub taken: Vec<u8>,
    pub left: usize,
    pub most: usize,
    pub fails: bool,
}

impl BrokenWriter {
    /// Takes so many bytes, as many a call as are given, and then fails or takes none.
    pub fn new(alloc: Global, left: usize, fails: bool) -> BrokenWriter {
        BrokenWriter {
            taken: Vec::new(alloc),
            left,
            most: usize::MAX,
            fails,
        }
    }
}

impl Write for BrokenWriter {
    fn write(&mut self, buf: &[u8]) -> io::Result<usize> {
        let count = buf.len().min(self.most).min(self.left);
        if count == 0 && self.fails {
            return Err(io::Error::from(ErrorKind::BrokenPipe));
        }
        self.taken.extend_from_slice(&buf[..count])?;
        self.left -= count;
        Ok(count)
    }

    fn flush(&mut self) -> io::Result<()> {
        Ok(())
    }
}

/// A writer that takes all that it is given, and tells the pieces apart.
#[derive(Drop)]
pub struct Recorder {
    pub alloc: Global,
    pub pieces: Vec<Vec<u8>>,
}

impl Recorder {
    /// Was given nothing yet.
    pub fn new(alloc: Global) -> Recorder {
        Recorder {
            alloc,
            pieces: Vec::new(alloc),
        }
    }
}

impl Write for Recorder {
    fn write(&mut self, buf: &[u8]) -> io::Result<usize> {
        let piece = Vec::from_slice(self.alloc, buf)?;
        self.pieces.push(piece)?;
        Ok(buf.len())
    }

    fn flush(&mut self) -> io::Result<()> {
        Ok(())
    }
}
