//! What may be said.

use crate::note::append_named;
use sfc_base::case::is_same_word;
use sfc_page::append::append;
use std::alloc::AllocError;

/// All words.
const ALL: &[u8] = b"\
A line is a command of a script, with an instant in front or without one, or one of the prompt's own words.
  SCAN [task]                        scans a task at its next release, or the task that goes first
  SINGLE task [duration]             scans a task of a halted resource
  INPUT, FORCE variable value        gives a value
  RELEASE, READ variable             ends a force, reads a value
  BREAK program point [WHEN condition], UNBREAK program point
  STOP, GO, RESET program, EPOCH, END
  UNTIL [IN program] condition       scans until it is TRUE
  AGAIN [n]                          the last step again; an empty line does it once
  ALL UNTIL .., ALL AGAIN ..         the same, and each scan is shown
  SHOW, IMAGE [variable], POINTS, TRACE [n], LIST [name]
  WHY [program [transition]]         why transitions aren't cleared
  EXPLAIN number or name             what a refusal or a fault means
  SAVE file                          the accepted commands as a script for replay
  HELP [word], QUIT
";

/// A word, and what is told of it.
#[derive(Clone, Copy)]
struct Topic {
    word: &'static [u8],
    text: &'static [u8],
}

const TOPICS: [Topic; 26] = [
    Topic {
        word: b"SCAN",
        text: b"\
SCAN task: scans the programs of the task. Without an instant in front it goes on to the task's next release where it isn't due.
SCAN: scans the task that goes first; where none waits, at the earliest next release of all tasks.
",
    },
    Topic {
        word: b"INPUT",
        text: b"\
INPUT variable value: writes a value to a variable that is located at %I, as the field would.
",
    },
    Topic {
        word: b"FORCE",
        text: b"\
FORCE variable value: the variable reads this value until RELEASE, whatever is written to it.
",
    },
    Topic {
        word: b"RELEASE",
        text: b"\
RELEASE variable: the variable reads again what was written to it last.
",
    },
    Topic {
        word: b"READ",
        text: b"\
READ variable: what the variable reads. It is a command, and so a line of the script; IMAGE variable is none.
",
    },
    Topic {
        word: b"RESET",
        text: b"\
RESET program: the program instance begins a new life.
",
    },
    Topic {
        word: b"BREAK",
        text: b"\
BREAK program STEP name, BREAK program TRANSITION name or number, BREAK program ACTION name: a scan that hits it halts the resource.
BREAK .. WHEN condition: it is hit only where the condition is TRUE after the scan. GO lets a halted resource run on.
",
    },
    Topic {
        word: b"UNBREAK",
        text: b"\
UNBREAK program point: takes the breakpoint away, with or without a condition. POINTS tells which are set.
",
    },
    Topic {
        word: b"STOP",
        text: b"\
STOP: halts the resource. Its time stands still, and SINGLE scans it.
",
    },
    Topic {
        word: b"GO",
        text: b"\
GO: lets a halted resource run on.
",
    },
    Topic {
        word: b"SINGLE",
        text: b"\
SINGLE task duration: scans the task of a halted resource, due or not, after so much of the resource's time. It stays halted.
SINGLE task: the same after one INTERVAL of the task, where it has one.
",
    },
    Topic {
        word: b"EPOCH",
        text: b"\
EPOCH: what the commands before it have left is kept in their place. It changes no later answer.
",
    },
    Topic {
        word: b"END",
        text: b"\
END: no command behind it is accepted. QUIT ends the session.
",
    },
    Topic {
        word: b"UNTIL",
        text: b"\
UNTIL condition, UNTIL IN program condition: scans as SCAN does until the condition is TRUE, at most 100,000 times. It stands in the program
instance, as that of a transition; IN may be left out where there is one instance. A scan that is refused, hits a breakpoint or ends with a
fault ends it before. Shown are scans in which a program changed, and the last one; ALL UNTIL .. shows each.
",
    },
    Topic {
        word: b"AGAIN",
        text: b"\
AGAIN, AGAIN n: the last SCAN or SINGLE again, once or n times, at most 100,000. A scan that is refused, hits a breakpoint or ends with a
fault ends it before. An empty line does it once. Of several scans those are shown in which a program changed, and the last one; ALL AGAIN n
shows each.
",
    },
    Topic {
        word: b"ALL",
        text: b"\
ALL UNTIL .., ALL AGAIN n: as UNTIL and AGAIN, and each scan is shown, also where no program has other active steps, cleared a transition or
executes other actions.
",
    },
    Topic {
        word: b"SHOW",
        text: b"\
SHOW: the instants and the mode; each task with its next release; each program instance as below a scan.
",
    },
    Topic {
        word: b"IMAGE",
        text: b"\
IMAGE, IMAGE variable: what all variables read, or this one. A local variable is INSTANCE.NAME.
",
    },
    Topic {
        word: b"POINTS",
        text: b"\
POINTS: the breakpoints that are set, each as the command that set it.
",
    },
    Topic {
        word: b"TRACE",
        text: b"\
TRACE, TRACE n: the newest n accepted commands, 10 where no number is given.
",
    },
    Topic {
        word: b"LIST",
        text: b"\
LIST, LIST name: the text of the chart, or of each element of this name: a program, step, transition, action, variable, task.
",
    },
    Topic {
        word: b"WHY",
        text: b"\
WHY program transition: the steps before the transition, its condition, and what that reads now. Times are those of the latest scan.
WHY, WHY program: the same of each transition behind an active step.
",
    },
    Topic {
        word: b"EXPLAIN",
        text: b"\
EXPLAIN number, EXPLAIN name: what a refusal or a fault means.
",
    },
    Topic {
        word: b"SAVE",
        text: b"\
SAVE file: writes the accepted commands with their instants: a script of which replay writes the lines that were written here, and those of
scans that weren't shown. A file that is there and wasn't saved here stays as it is; SAVE file! replaces it.
",
    },
    Topic {
        word: b"HELP",
        text: b"\
HELP, HELP word: what may be said, or what a word does.
",
    },
    Topic {
        word: b"QUIT",
        text: b"\
QUIT: ends the session. The end of input, at a terminal Ctrl-D, does too.
",
    },
];

/// Puts at the end what may be said, or where a word is given what it does. The one error is that memory was refused.
pub fn append_help(out: &mut Vec<u8>, word: &[u8]) -> Result<(), AllocError> {
    if word.is_empty() {
        return append(out, ALL);
    }
    for topic in &TOPICS {
        if is_same_word(topic.word, word) {
            return append(out, topic.text);
        }
    }
    append_named(out, b"no word ", word)
}
