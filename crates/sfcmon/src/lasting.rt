//! Input of a run that lasts longer, or shorter, than its input.

use sfc_base::write_fault::put_all;
use sfc_replay::replay_error::ReplayError;
use std::alloc::{AllocError, Global};
use std::collections::VecDeque;
use std::io::{ErrorKind, Read, Stdin};
use std::sync::{Arc, Mutex, Wait};
use std::thread::{Parker, Threads};
use std::time::{Duration, Instant};
use std::{io, thread, time};

/// How many bytes of the input may wait.
const ROOM: usize = 65_536;

/// How many bytes are read at a time.
const PIECE: usize = 4096;

/// How many milliseconds pass at most between two looks.
const LONG: u64 = 100;

/// How many milliseconds pass between two looks whether there is room.
const PAUSE: u64 = 10;

/// How long a run lasts.
#[derive(Clone, Copy, Debug, PartialEq, Eq)]
pub enum Lasting {
    /// As long as its input.
    Input,
    /// So many microseconds, however long its input is.
    For(u64),
    /// Until a signal ends the process, however long its input is.
    Forever,
}

// What is still to be expected of the input.
#[derive(Clone, Copy, Debug, PartialEq, Eq)]
enum Source {
    Open,
    Ended,
    Failed,
}

// What has come of the input and waits.
#[derive(Drop)]
struct Inbox {
    bytes: VecDeque<u8>,
    source: Source,
}

// Where the thread that reads the input puts what comes.
#[derive(Drop)]
struct Mailbox {
    inbox: Mutex<Inbox>,
    parker: Parker,
}

impl Mailbox {
    // The error is that memory was refused.
    fn new(alloc: Global) -> Result<Mailbox, AllocError> {
        let bytes = VecDeque::with_capacity(alloc, ROOM + PIECE)?;
        Ok(Mailbox {
            inbox: Mutex::new(Inbox {
                bytes,
                source: Source::Open,
            }),
            parker: Parker::new(),
        })
    }

    fn has_room<R: Wait>(&self, rt: &R) -> bool {
        self.inbox.lock(rt).bytes.len() < ROOM
    }

    // Waits until there is room.
    fn wait_for_room<R: Wait + time::Clock>(&self, rt: &R) {
        'looks: for _ in rt.forever() {
            if self.has_room(rt) {
                return;
            }
            thread::sleep(rt, Duration::from_millis(PAUSE));
        }
    }

    // Puts bytes behind the others, with what is to be expected behind them.
    fn put<R: Wait + time::Clock>(&self, rt: &R, piece: &[u8], source: Source) {
        self.wait_for_room(rt);
        let mut inbox = self.inbox.lock(rt);
        inbox.source = match put_all(&mut inbox.bytes, piece) {
            Ok(()) => source,
            Err(_) => Source::Failed,
        };
        self.parker.unpark();
    }

    // Takes bytes that wait: how many they are. `None` where none wait, and more may come.
    fn take<R: Wait>(&self, rt: &R, buf: &mut [u8]) -> Option<io::Result<usize>> {
        let mut inbox = self.inbox.lock(rt);
        match inbox.bytes.read(buf) {
            Ok(0) => match inbox.source {
                Source::Failed => Some(Err(io::Error::from(ErrorKind::Other))),
                Source::Open | Source::Ended => None,
            },
            answer => Some(answer),
        }
    }
}

// A mailbox, twice.
fn two_of(alloc: Global) -> Result<(Arc<Mailbox>, Arc<Mailbox>), AllocError> {
    let one = Arc::new(alloc, Mailbox::new(alloc)?)?;
    let other = one.clone()?;
    Ok((one, other))
}

// Brings the input to its end. The end ends a line too.
fn bring<R: Wait + time::Clock + Drop>(rt: R, input: Stdin, mailbox: Arc<Mailbox>) {
    let mut input = input;
    let mut piece = [0u8; PIECE];
    'pieces: for _ in rt.forever() {
        match input.read(&mut piece) {
            Ok(0) => {
                mailbox.put(&rt, b"\n", Source::Ended);
                return;
            }
            Ok(count) => mailbox.put(&rt, &piece[..count], Source::Open),
            Err(_) => {
                mailbox.put(&rt, b"", Source::Failed);
                return;
            }
        }
    }
}

// What a line was so far: nothing, the first letters of END, END alone, or something else; or its end has come, and it was END alone.
#[derive(Clone, Copy, Debug, PartialEq, Eq)]
enum Line {
    Begins,
    E,
    En,
    End,
    Other,
    Ended,
}

impl Line {
    // What it is with a byte more.
    fn with(self, byte: u8) -> Line {
        match (self, byte.to_ascii_uppercase()) {
            (Line::End, b'\n') => Line::Ended,
            (_, b'\n') => Line::Begins,
            (Line::Begins | Line::End, b' ' | b'\t' | b'\r') => self,
            (Line::Begins, b'E') => Line::E,
            (Line::E, b'N') => Line::En,
            (Line::En, b'D') => Line::End,
            _ => Line::Other,
        }
    }
}

/// The input of a run, which goes on behind its end until the time of the run is over, and ends then, whatever comes of it. A line END ends
/// it too.
#[derive(Drop)]
pub struct LastingInput<'a, R: Wait + time::Clock> {
    rt: &'a R,
    mailbox: Arc<Mailbox>,
    lasting: Lasting,
    // Whether its time has begun, and when it is over; `None` where it never is.
    has_begun: bool,
    until: Option<Instant>,
    line: Line,
}

// So long from now on. The error is that the clock can't be read; `None` where it is too long.
fn in_time<R: time::Clock>(rt: &R, lasting: Lasting) -> io::Result<Option<Instant>> {
    match lasting {
        Lasting::For(micros) => Ok(Instant::now(rt)?.checked_add(Duration::from_micros(micros))),
        Lasting::Input | Lasting::Forever => Ok(None),
    }
}

impl<'a, R: Threads + Wait + time::Clock + Copy + Drop + Send + 'static> LastingInput<'a, R> {
    /// The input is read by a thread of its own, which nobody waits for. Its time begins where it is read first, behind the start of the run's
    /// clock. The one error is that memory or a thread was refused.
    pub fn open(
        rt: &'a R,
        alloc: Global,
        input: Stdin,
        lasting: Lasting,
    ) -> Result<LastingInput<'a, R>, ReplayError> {
        let (mailbox, theirs) = two_of(alloc)?;
        let own = *rt;
        match thread::spawn(rt, move || bring(own, input, theirs)) {
            Ok(_) => Ok(LastingInput {
                rt,
                mailbox,
                lasting,
                has_begun: false,
                until: None,
                line: Line::Begins,
            }),
            Err(_) => Err(ReplayError::Memory),
        }
    }
}

impl<'a, R: Wait + time::Clock> LastingInput<'a, R> {
    // Its time begins, where it hasn't. The error is that the clock can't be read.
    fn begin(&mut self) -> io::Result<()> {
        if !self.has_begun {
            self.until = in_time(self.rt, self.lasting)?;
            self.has_begun = true;
        }
        Ok(())
    }

    // How long is waited at most; `None` where its time is over, or the clock can't be read.
    fn left(&self) -> Option<Duration> {
        let long = Duration::from_millis(LONG);
        let Some(until) = self.until else {
            return Some(long);
        };
        let now = Instant::now(self.rt).ok()?;
        let left = until.duration_since(now);
        if left.is_zero() {
            return None;
        }
        Some(left.min(long))
    }

    // How many of these bytes are handed out: those up to the end of a line END.
    fn up_to_end(&mut self, piece: &[u8]) -> usize {
        let mut count = 0usize;
        'bytes: for byte in piece {
            count = count.saturating_add(1);
            self.line = self.line.with(*byte);
            if self.line == Line::Ended {
                return count;
            }
        }
        count
    }
}

impl<'a, R: Wait + time::Clock> Read for LastingInput<'a, R> {
    fn read(&mut self, buf: &mut [u8]) -> io::Result<usize> {
        self.begin()?;
        'looks: for _ in self.rt.forever() {
            if self.line == Line::Ended || buf.is_empty() {
                return Ok(0);
            }
            let Some(left) = self.left() else {
                return Ok(0);
            };
            if let Some(taken) = self.mailbox.take(self.rt, buf) {
                let count = taken?.min(buf.len());
                return Ok(self.up_to_end(&buf[..count]).min(count));
            }
            self.mailbox.parker.park_timeout(self.rt, left);
        }
        unreachable!()
    }
}
