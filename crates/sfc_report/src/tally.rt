//! How many commands, refusals and faults a run had.

/// How many commands, refusals and faults a run had, by the lines that `replay` writes.
#[derive(Clone, Copy, Debug, PartialEq, Eq)]
pub struct Tally {
    /// Commands of the script.
    pub commands: u64,
    /// Those that were refused.
    pub refused: u64,
    /// Scans of tasks.
    pub scans: u64,
    /// Scans of tasks at which a breakpoint was hit.
    pub hits: u64,
    /// Scans of program instances that ended with a fault.
    pub faults: u64,
}

// One more, if so.
fn counted(count: u64, is: bool) -> u64 {
    if is { count.saturating_add(1) } else { count }
}

// The word at this place of a line.
fn word_at(line: &[u8], place: usize) -> &[u8] {
    let mut rest = place;
    for word in line.split(|byte| *byte == b' ') {
        if rest == 0 {
            return word;
        }
        rest -= 1;
    }
    b""
}

impl Tally {
    // A line that answers a command.
    fn add_command(&mut self, line: &[u8]) {
        let is_scan = matches!(word_at(line, 1), b"SCAN" | b"SINGLE");
        self.commands = counted(self.commands, true);
        self.refused = counted(self.refused, line.starts_with(b"refused "));
        self.scans = counted(self.scans, is_scan);
        self.hits = counted(self.hits, is_scan && line.ends_with(b" hit"));
    }

    // A line: that of an instance begins with two blanks, and what stands behind the last command with `image`.
    fn add(&mut self, line: &[u8]) {
        if line.starts_with(b"  ") {
            self.faults = counted(self.faults, word_at(line, 3) == b"fault".as_slice());
        } else if !line.is_empty() && !line.starts_with(b"image ") {
            self.add_command(line);
        }
    }

    /// That of a run of which `replay` wrote this.
    pub fn of_replay(text: &[u8]) -> Tally {
        let mut tally = Tally {
            commands: 0,
            refused: 0,
            scans: 0,
            hits: 0,
            faults: 0,
        };
        for line in text.split(|byte| *byte == b'\n') {
            tally.add(line);
        }
        tally
    }
}
