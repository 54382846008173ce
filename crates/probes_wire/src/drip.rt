//! A reader that gives little at a time, and fails once.

use std::io::{self, ErrorKind, Read};

/// A reader that gives bytes, at most so many a call, and fails once, when so many calls were made.
#[derive(Drop)]
pub struct Drip<'a> {
    pub rest: &'a [u8],
    pub most: usize,
    pub fails_in: Option<usize>,
}

impl<'a> Drip<'a> {
    /// Gives all the bytes, and never fails.
    pub fn new(rest: &'a [u8], most: usize) -> Drip<'a> {
        Drip {
            rest,
            most,
            fails_in: None,
        }
    }
}

impl<'a> Read for Drip<'a> {
    fn read(&mut self, buf: &mut [u8]) -> io::Result<usize> {
        match self.fails_in {
            Some(0) => {
                self.fails_in = None;
                return Err(io::Error::from(ErrorKind::BrokenPipe));
            }
            Some(calls) => self.fails_in = Some(calls - 1),
            None => {}
        }
        let count = self.rest.len().min(self.most).min(buf.len());
        let (front, behind) = self.rest.split_at(count);
        buf[..count].copy_from_slice(front);
        self.rest = behind;
        Ok(count)
    }
}
