//! The command line.

use crate::files::end_with;
use crate::lasting::Lasting;
use crate::sfc_debug::trace_mask::TraceMask;
use clap::builder::ValueParser;
use clap::error::ErrorKind;
use clap::parser::ValueSource;
use clap::{Arg, ArgAction, ArgMatches, Command, Error};
use sfc_lint::kind::kind_named;
use sfc_replay::replay_error::ReplayError;
use sfc_tokens::duration::duration;
use sfc_wave::asked::{Form, Instants};
use std::alloc::{AllocError, Global};

/// The version of the program.
pub const VERSION: &str = "0.4.0";

/// A script to be played on a chart.
#[derive(Drop)]
pub struct Playing {
    /// The name of the chart's file.
    pub chart: String,
    /// The name of the script's file.
    pub script: String,
    /// Whether what is refused or ends with a fault counts for the exit status.
    pub strict: bool,
}

/// A chart, and maybe a script, whose first fault is to be told.
#[derive(Drop)]
pub struct Asking {
    /// The name of the chart's file.
    pub chart: String,
    /// The name of the script's file, if there is one.
    pub script: Option<String>,
    /// Whether all faults of the chart are to be told.
    pub all: bool,
}

/// A chart to be stepped by hand.
#[derive(Drop)]
pub struct Debugging {
    /// The name of the chart's file.
    pub chart: String,
    /// The name of the new file to which the accepted commands go as they come.
    pub record: Option<String>,
}

/// A chart to be run in real time.
#[derive(Drop)]
pub struct Running {
    /// The name of the chart's file.
    pub chart: String,
    /// Which commands have lines.
    pub mask: TraceMask,
    /// Whether a word says so.
    pub has_mask: bool,
    /// How many commands may be held.
    pub history: usize,
    /// How long it lasts.
    pub lasting: Lasting,
    /// Whether it is shown what changes.
    pub changes: bool,
    /// The names of variables that are shown where they change.
    pub watched: Vec<String>,
    /// What is shown at a fault and at the end, as NAME=VALUE.
    pub at_end: Vec<String>,
    /// Whether it is told at the end how late scans were.
    pub timing: bool,
    /// The name of the new file to which the accepted commands go as they come.
    pub record: Option<String>,
    /// How many bytes each part of that has at most.
    pub record_size: usize,
}

/// What a drawing shows.
#[derive(Drop)]
pub enum Shown {
    /// The program types.
    Types,
    /// The program instances behind the script in the file of this name.
    After(String),
    /// The program instances, with what is never reached by the scripts in the files of these names.
    Covered(Vec<String>),
}

/// A chart to be drawn.
#[derive(Drop)]
pub struct Drawing {
    /// The name of the chart's file.
    pub chart: String,
    /// The program type that is drawn alone.
    pub program: Option<String>,
    /// What is shown of it.
    pub shown: Shown,
    /// Whether it is drawn for Graphviz.
    pub is_dot: bool,
}

/// A script on a chart whose signals are to be shown.
#[derive(Drop)]
pub struct Waving {
    /// The name of the chart's file.
    pub chart: String,
    /// The name of the script's file.
    pub script: String,
    /// Which instants are shown.
    pub instants: Instants,
    /// How they are written.
    pub form: Form,
    /// The names of the signals that are wanted, or of what they belong to; all are, where none is named.
    pub only: Vec<String>,
    /// The name of the file for the save file of GTKWave.
    pub view: Option<String>,
}

/// Scripts on a chart of which is asked what they reach together.
#[derive(Drop)]
pub struct Covering {
    /// The name of the chart's file.
    pub chart: String,
    /// The names of the scripts' files.
    pub scripts: Vec<String>,
    /// How many percents are wanted at the least.
    pub least: u8,
}

/// Tests of a chart.
#[derive(Drop)]
pub struct Testing {
    /// The name of the chart's file.
    pub chart: String,
    /// The names of the files of tests.
    pub files: Vec<String>,
    /// What stands in the names of the cases that are wanted.
    pub filter: Option<String>,
    /// Whether the cases are listed, and not run.
    pub is_list: bool,
    /// Whether they are told as the Test Anything Protocol has it.
    pub is_tap: bool,
    /// The name of the file to which the results go as the XML of JUnit.
    pub junit: Option<String>,
    /// How many percents all cases have to reach together, where that is asked.
    pub cover: Option<u8>,
    /// The names of the files to which the signals and the script of the first case go that has failed.
    pub wave: Option<String>,
    pub script: Option<String>,
}

/// Scripts on a chart, and its tests, of which a report is asked.
#[derive(Drop)]
pub struct Reporting {
    /// The name of the chart's file.
    pub chart: String,
    /// The names of the scripts' files.
    pub scripts: Vec<String>,
    /// The names of the files of tests.
    pub tests: Vec<String>,
}

/// A chart whose warnings are to be told.
#[derive(Drop)]
pub struct Linting {
    /// The name of the chart's file.
    pub chart: String,
    /// The kinds of warnings that count for the exit status, by code or name; `all` stands for all.
    pub denied: Vec<String>,
    /// The kinds that aren't told.
    pub allowed: Vec<String>,
    /// How many sets of active steps of a network are looked at.
    pub limit: usize,
}

/// What the words ask for.
#[derive(Drop)]
pub enum Request {
    /// A chart to be checked, by the name of its file.
    Check { chart: String },
    /// A chart to be listed, by the name of its file.
    List { chart: String },
    /// What a chart surely or probably does wrong.
    Lint(Linting),
    /// Where the first fault of a chart is, or of a script, and what was meant.
    Why(Asking),
    /// A script to be played on a chart.
    Replay(Playing),
    /// A chart to be run in real time, with a session on standard input.
    Run(Running),
    /// A chart to be stepped by hand.
    Debug(Debugging),
    /// An editor, to be served by the Language Server Protocol on standard input and standard output.
    Lsp,
    /// An editor, to be served by the Debug Adapter Protocol on standard input and standard output.
    Dap,
    /// A chart to be drawn.
    Draw(Drawing),
    /// A script on a chart whose signals are to be shown.
    Wave(Waving),
    /// Scripts on a chart of which is asked what they reach together.
    Cover(Covering),
    /// Tests of a chart.
    Test(Testing),
    /// A report of a chart and of scripts on it.
    Report(Reporting),
    /// What a refusal or a fault means, by its number or its name.
    Explain { word: String },
    /// The numbers and names of all refusals and faults.
    ListExplanations,
    /// The words were answered already: help, the version, or what is wrong with them. This exit status is left.
    Answered(u8),
}

// What stands at the end of the help on `replay`.
const REPLAY_NOTES: &str = "\
Exit status:
  0  all commands were played; one that was refused has a line that begins with 'refused'
  1  the chart or the script is refused; with --strict also: a command was refused, or a scan ended with a fault
  2  the words of the command line are wrong
  3  a file can't be read, or the output can't be written
  4  memory was refused

Examples:
  sfcmon replay examples/lamp.chart examples/lamp.script
  sfcmon replay --strict examples/lamp.chart examples/lamp.script

'sfcmon explain NUMBER' tells what a refusal or a fault means.
docs/LANGUAGE.md describes the text of charts, docs/FORMATS.md scripts and output.";

// What stands at the end of the help on `run`.
const RUN_NOTES: &str = "\
A session comes from standard input, a command a line as in a script, but without instants: SCAN, INPUT, FORCE, RELEASE, RESET, READ, BREAK,
UNBREAK, STOP, GO, SINGLE, END, EPOCH. At the end of input, at a terminal Ctrl-D, it sends END; with --for it does so when that time has
passed, with --forever not until a line END comes, or a signal ends the process. Each accepted command has a line on standard
output: its number, and its line as 'replay' prints it. The last line is 'audit ok' and how many commands were accepted. On standard error
stands why a command is refused, 'script line N' for a line that is no command, and, whatever --trace picks, each scan of a program that
ended with a fault or hit a breakpoint, as 'replay' prints it, and overruns.

With --show changes, a command that changes something has its line, and below it what it changed: the line of each program whose active
steps, cleared transitions or executed actions are others than before, as 'replay' prints it, and 'Pump TRUE' for each output and each
variable of --watch that reads another value. Other commands have lines only where --trace picks them. At a terminal this is
so without a word too, unless --trace is given, and other commands than SCAN and SINGLE have lines. A program beside the machine takes
its terminals from these lines, and with --at-end Pump=FALSE is told what is safe when a program has died.

With --record SCRIPT each accepted command goes to a new file as it comes, a line of a script: 'sfcmon replay FILE SCRIPT' prints what the run
has answered. With --record-size the files SCRIPT, SCRIPT.2, SCRIPT.3 and so on are the script, one behind the other.

Lines that begin with SHOW, IMAGE, WHY, POINTS, TRACE, LIST, EXPLAIN or HELP ask how all stands, as at the prompt of 'debug', and change
nothing.

A session that starts a pump, halts it, reads, forces, lets go and ends, and what is printed of it, beside the lines of scans:
  ; start it                   7 T#1s_100ms INPUT Start TRUE
  INPUT Start TRUE             13 T#2s_100ms READ Pump TRUE
  READ Pump                    19 T#3s_50ms STOP
  STOP                         20 T#3s_50ms READ Pump TRUE
  READ Pump                    21 T#3s_50ms FORCE Stop TRUE
  FORCE Stop TRUE              22 T#3s_250ms SINGLE Main T#200ms overruns 0
  SINGLE Main T#200ms          23 T#3s_250ms READ RunOnLamp TRUE
  READ RunOnLamp               24 T#3s_250ms RELEASE Stop
  RELEASE Stop                 25 T#3s_250ms GO
  GO                           28 T#3s_700ms END
                               audit ok 28
While the resource is halted its time stands still, however long the halt is.

Which commands have lines, for --trace:
  1  SCAN, SINGLE      8  RESET               64  READ
  2  INPUT            16  BREAK, UNBREAK
  4  FORCE, RELEASE   32  STOP, GO, END, EPOCH

Exit status:
  0  the run has ended, and its audit is right
  1  the chart is refused, a program stood faulted at the end, scans of a task ended early, or the audit found a mismatch
  2  the words of the command line are wrong
  3  the file or standard input can't be read, or standard output can't be written; or the script of --record is there already
  4  memory or a thread was refused

Examples:
  sfcmon run examples/pump.chart
  sfcmon run --trace 126 examples/pump.chart
  sfcmon run --show changes examples/pump.chart
  sfcmon run --forever --watch Pump --at-end Pump=FALSE examples/pump.chart
  sfcmon run --for T#8h --trace 0 examples/pump.chart </dev/null
  sfcmon run --record night.script examples/pump.chart

docs/FORMATS.md says what each line is, docs/RUNNING.md how a machine is run.";

// What stands at the end of the help on `debug`.
const DEBUG_NOTES: &str = "\
Each line is a command of a script, with its instant in front or without one, or one of these words:
  SCAN                            scans the task that goes first, at its release; SCAN TASK goes on to the next release of the task
  AGAIN [N]                       the last SCAN or SINGLE again; an empty line does it once
  UNTIL [IN PROGRAM] CONDITION    scans until the condition is TRUE
  ALL AGAIN .., ALL UNTIL ..      the same, and each scan is shown; else those in which something changed, and the last
  SHOW, IMAGE [VARIABLE], POINTS, TRACE [N], LIST [NAME]
  WHY [PROGRAM [TRANSITION]]      why transitions aren't cleared
  EXPLAIN NUMBER, HELP [WORD]
  SAVE FILE                       the accepted commands as a script for 'replay'
  QUIT                            the end, as at the end of input, at a terminal Ctrl-D
Each line is answered at once, a command with the lines of 'replay'. What is wrong with a line is told behind a semicolon.

Exit status:
  0  the session has ended; what was refused in it leaves it so
  1  the chart is refused
  2  the words of the command line are wrong
  3  the file or standard input can't be read, or standard output can't be written
  4  memory was refused

Examples:
  sfcmon debug examples/mixing.chart
  printf 'SCAN\\nWHY\\n' | sfcmon debug examples/mixing.chart

docs/FORMATS.md says what each word tells.";

// What stands at the end of the help on the program.
const NOTES: &str = "\
'sfcmon COMMAND --help' tells the exit statuses, an example, and where the formats are described.
'sfcmon why FILE' tells where the first fault of a chart is. 'sfcmon explain' lists all refusals and faults, and 'sfcmon explain 14' tells
what the one with this number means.";

// What stands at the end of the help on `check`.
const CHECK_NOTES: &str = "\
Exit status:
  0  the chart has no fault: 'ok' is printed
  1  the chart is refused, for its first fault
  2  the words of the command line are wrong
  3  the file can't be read, or the output can't be written
  4  memory was refused

Example:
  sfcmon check examples/lamp.chart

'sfcmon why FILE' tells where a fault is and what may be meant, 'sfcmon explain NUMBER' what it means.
docs/LANGUAGE.md describes the text of charts and what is checked, docs/FORMATS.md the faults.";

// What stands at the end of the help on `lsp`.
const LSP_NOTES: &str = "\
An editor starts it, sends requests and is answered: faults and warnings as they are typed, what a name is and where it stands, names to choose
from, renaming, layout. 'editors' has files for VS Code, Neovim and Emacs.

Exit status:
  0  the editor has asked for shutdown, and has left
  1  it has left without that
  3  what came is no frame, or can't be read, or an answer can't be written
  4  memory was refused";

// What stands at the end of the help on `dap`.
const DAP_NOTES: &str = "\
An editor starts it and steps the chart that its request launch names, in virtual time, by breakpoints, forwards and back. What was done is a
script. 'editors' has files for VS Code, Neovim and Emacs.

Exit status:
  0  the editor has left
  3  what came is no frame, or can't be read, or an answer can't be written
  4  memory was refused";

// What stands at the end of the help on `why`.
const WHY_NOTES: &str = "\
The first line is FILE:LINE:COLUMN: NUMBER NAME: WORD, as editors and CI jobs read it, with a name that is near behind it. Below it stand the
line with a mark, the element, what could stand there or may be meant, what the refusal means, and what usually leads to it. Without a fault
it is 'no fault', behind a warning for each command of the script that names what the chart hasn't. In a file of tests such a command is a
fault.

Exit status:
  0  the chart has no fault, nor has the script or the file of tests
  1  one of them is refused: its first fault is told, or with --all all faults of the chart
  2  the words of the command line are wrong
  3  a file can't be read, or the output can't be written
  4  memory was refused

Examples:
  sfcmon why examples/lamp.chart
  sfcmon why --all examples/lamp.chart
  sfcmon why examples/lamp.chart examples/lamp.script
  sfcmon why examples/lamp.chart examples/lamp.sfctest

docs/FORMATS.md says what each line is, docs/LANGUAGE.md describes the text of charts. 'editors' has files for VS Code, Neovim, Emacs and
Vim.";

// What stands at the end of the help on `lint`.
const LINT_NOTES: &str = "\
Each warning is a line FILE:LINE:COLUMN: warning W101: NAME: what is wrong, as editors and CI jobs read it. Below it stand a shortest run that
leads there, where there is one, a scan a line, and what to do. Without a warning it is 'no warning'. What a network can reach is
searched with all conditions open, up to --limit sets of active steps; a program of which that gave up is named.
A pragma {lint: allow DeadEnd} in front of an element, in the chart, allows the kind in it; several stand with commas between them.

Kinds:
  W101 Unreachable, W102 JoinNeverComes, W103 Unsafe, W104 DeadEnd, W105 TwoInitial, W106 NotJoined,
  W201 TimedTogether, W202 DelayedAndLimited, W203 DivisionByZero, W204 AlwaysSame, W205 NeverTrue, W206 SetAndReset,
  W301 TwoWriters, W302 ReadsOld, W303 InputWritten, W304 Unused, W305 NearNames, W306 OtherCase, W307 StoredForever,
  W308 NoAssociation, W309 DeadBranch, W401 Overlap, W501 NeverRuns, W502 NoProgram, W503 Starved

Exit status:
  0  the chart has no fault; warnings may be told
  1  the chart is refused; or there is a warning of a kind that --deny names
  2  the words of the command line are wrong
  3  the file can't be read, or the output can't be written
  4  memory was refused

Examples:
  sfcmon lint examples/mixing.chart
  sfcmon lint --deny all --allow Starved examples/mixing.chart

'sfcmon explain W101' tells what a kind means. docs/FORMATS.md has them all in one table.";

// What stands at the end of the help on `list`.
const LIST_NOTES: &str = "\
Exit status:
  0  the chart has no fault: its text is printed
  1  the chart is refused, for its first fault
  2  the words of the command line are wrong
  3  the file can't be read, or the output can't be written
  4  memory was refused

Example:
  sfcmon list examples/lamp.chart

'sfcmon explain NUMBER' tells what a fault means.
docs/LANGUAGE.md describes the text of charts, docs/FORMATS.md how it is laid out, and the faults.";

// What stands at the end of the help on `draw`.
const DRAW_NOTES: &str = "\
The picture is SVG, in the graphic form of IEC 61131-3 (2.6.2 to 2.6.5): program types, one below the other. Branches stand from left to right
as they win. A jump is an arrow with the name of its target, and at the target an arrow with the numbers of the transitions from which it
comes. Names and conditions that are cut with '..' stand whole where the pointer rests on them.

Exit status:
  0  the picture is written
  1  the chart or a script is refused, or the picture would be too large
  2  there is no such program type, or the words of the command line are wrong
  3  a file can't be read, or the output can't be written
  4  memory was refused

Examples:
  sfcmon draw examples/pump.chart > pump.svg
  sfcmon draw --program PumpControl examples/pump.chart
  sfcmon draw --after examples/pump.script examples/pump.chart
  sfcmon draw --cover examples/pump.script examples/pump.chart
  sfcmon draw --dot examples/pump.chart | dot -Tpdf > pump.pdf

dot is a program of Graphviz. docs/FORMATS.md says what is drawn how.";

// What stands at the end of the help on `wave`.
const WAVE_NOTES: &str = "\
Signals, in the scope of the resource: mode.Running; TASK.scan, up at each scan, and TASK.overruns; each global variable, and VARIABLE.forced.
In the scope of each program instance: its local variables; STEP.X and STEP.T, as of its latest scan; ACTION.Q and ACTION.A; and steps.active, the
names of its active steps. A TIME is a number of microseconds, and so is an instant. Instants are run instants, so that a halt takes no time;
with --raw they are those of the script.

Exit status:
  0  the whole script was played; what was refused isn't shown
  1  the chart or the script is refused, or the run has too many changes for a picture
  2  there is no such signal, or the words of the command line are wrong
  3  a file can't be read, or the output can't be written
  4  memory was refused

Examples:
  sfcmon wave examples/pump.chart examples/pump.script > pump.vcd
  sfcmon wave --gtkw pump.gtkw examples/pump.chart examples/pump.script > pump.vcd; gtkwave pump.vcd pump.gtkw
  sfcmon wave --svg --only Start,Stop,Pump,Pump1.steps examples/pump.chart examples/pump.script > pump.svg
  sfcmon wave --raw examples/commissioning.chart examples/commissioning.script > commissioning.vcd

GTKWave and PulseView show such files.";

// What stands at the end of the help on `cover`.
const COVER_NOTES: &str = "\
Each script is played on the chart as it is loaded, and what they reach is put together. Told are shares, of each program instance and of each
program type that has several instances or none, and what was never reached: steps that were never active; transitions that were never
enabled, never TRUE, or never cleared, with the transition that took their token; actions that were never executed; branches of IF statements
that were never taken.

Exit status:
  0  all scripts were played; what was refused is passed over
  1  the chart or a script is refused; with --min also: less was reached than is wanted
  2  the words of the command line are wrong
  3  a file can't be read, or the output can't be written
  4  memory was refused

Examples:
  sfcmon cover examples/pump.chart examples/pump.script
  sfcmon cover --min 90 examples/mixing.chart examples/mixing.script

docs/FORMATS.md says what each line is.";

// What stands at the end of the help on `test`.
const TEST_NOTES: &str = "\
A line of a test is a line of a script, its instant in front, left out (that of the last line) or with a + (from that on), or one of these:
  TEST NAME                                a case begins; what stands before the first TEST is done before each
  RUN INSTANT                              scans all tasks at their releases, up to the instant
  UNTIL CONDITION WITHIN DURATION          the same until the condition is TRUE, which it has to be by then
  EXPECT CONDITION                         it has to be TRUE
  EXPECT [IN PROGRAM] ACTIVE STEP, STEP    just these steps have to be active
  EXPECT REFUSED NUMBER COMMAND            the command has to be refused
  EXPECT FAULT KIND PROGRAM                the program has to stand with this fault
  EXPECT OVERRUNS NUMBER TASK              the task has to have so many overruns
  ALWAYS CONDITION, NEVER CONDITION        it has to be TRUE, or FALSE, from here on; behind it UNTIL CONDITION, FOR DURATION or nothing
  WITHIN DURATION AFTER CONDITION EXPECT CONDITION   each time that the first becomes TRUE the second has to be TRUE in time
  EVERY DURATION COMMAND                   beside RUN and UNTIL the command is given again and again; INPUT VARIABLE TOGGLE is one
  AT INSTANT COMMAND                       the command is given then
  RAMP VARIABLE NUMBER NUMBER DURATION     an input goes from one number to another, by one at a time
  LET NAME = WORD                          the name stands for the word
  INCLUDE FILE                             the lines of that file, beside this one
A condition is an expression. Where there are several programs, IN and the name of one stand before it, unless it reads globals alone; AND
IN and OR IN go on with another. A refused command, a fault and an overrun that no line expects fail the case. Of each case is told 'ok' or
'FAILED'.

Exit status:
  0  all cases have passed
  1  a case has failed; or the chart or a file of tests is refused
  2  the words of the command line are wrong
  3  a file can't be read, or the output can't be written
  4  memory was refused

Examples:
  sfcmon test examples/pump.chart examples/pump.sfctest
  sfcmon test --filter stop examples/pump.chart examples/pump.sfctest

docs/FORMATS.md says what each line is.";

// What stands at the end of the help on `report`.
const REPORT_NOTES: &str = "\
The page wants no network, and shows itself in any browser: versions and SHA-256 of the files; what came of each script and of each case of the
tests; the chart, which a slider over the commands colours, with the values and the waveform of that instant; faults, hits and refusals; how
all stands behind each script; and what the scripts reach together. It prints on paper as a record to sign.

Exit status:
  0  the page is written
  1  the chart, a script or a file of tests is refused, or a drawing would be too large
  2  the words of the command line are wrong
  3  a file can't be read, or the output can't be written
  4  memory was refused

Examples:
  sfcmon report examples/press.chart examples/press.script > press.html
  sfcmon report examples/press.chart examples/press.script examples/press.sfctest > press.html";

// What stands at the end of the help on `explain`.
const EXPLAIN_NOTES: &str = "\
Exit status:
  0  it is told; or all are listed, where no name is given
  2  there is no such number or name, or the words of the command line are wrong
  3  the output can't be written
  4  memory was refused

Examples:
  sfcmon explain
  sfcmon explain 14
  sfcmon explain NoInitial
  sfcmon explain out of memory

'sfcmon why FILE' tells where the fault of a chart is, and what may be meant.
docs/FORMATS.md has them all in one table.";

// The argument that names the file of a chart.
fn chart_argument<'a>(alloc: Global) -> Arg<'a> {
    Arg::new(alloc, "FILE")
        .required(true)
        .help("The chart, a text of IEC 61131-3")
}

// The argument by which what is refused or faulted counts for the exit status.
fn strict_argument<'a>(alloc: Global) -> Arg<'a> {
    Arg::new(alloc, "strict")
        .long("strict")
        .action(ArgAction::SetTrue)
        .help("Ends with status 1 where a command was refused or a scan ended with a fault")
}

fn check_command<'a>(alloc: Global) -> Result<Command<'a>, AllocError> {
    Command::new(alloc, "check")
        .about("Reads a chart of the whole language and checks its names, types and limits")
        .after_help(CHECK_NOTES)
        .arg(chart_argument(alloc))
}

// The argument that names a kind of warnings that counts for the exit status.
fn deny_argument<'a>(alloc: Global) -> Arg<'a> {
    Arg::new(alloc, "deny")
        .long("deny")
        .value_name("KIND")
        .action(ArgAction::Append)
        .help(
            "Ends with status 1 where there is a warning of this kind, by code or name, or of any for 'all'; may be given several times",
        )
}

// The argument that names a kind of warnings that isn't told.
fn allow_argument<'a>(alloc: Global) -> Arg<'a> {
    Arg::new(alloc, "allow")
        .long("allow")
        .value_name("KIND")
        .action(ArgAction::Append)
        .help("Tells no warning of this kind, by code or name; may be given several times")
}

// The argument that says how far a network is searched.
fn limit_argument<'a>(alloc: Global) -> Arg<'a> {
    Arg::new(alloc, "limit")
        .long("limit")
        .value_name("N")
        .value_parser(ValueParser::Unsigned(1, 100_000_000))
        .default_value("100000")
        .help("How many sets of active steps of a network are looked at")
}

fn lint_command<'a>(alloc: Global) -> Result<Command<'a>, AllocError> {
    Command::new(alloc, "lint")
        .about("Tells what a chart surely or probably does wrong")
        .after_help(LINT_NOTES)
        .arg(deny_argument(alloc))?
        .arg(allow_argument(alloc))?
        .arg(limit_argument(alloc))?
        .arg(chart_argument(alloc))
}

fn list_command<'a>(alloc: Global) -> Result<Command<'a>, AllocError> {
    Command::new(alloc, "list")
        .about(
            "Prints the text of a chart anew: all that it says, in one layout, each type and value written out",
        )
        .after_help(LIST_NOTES)
        .arg(chart_argument(alloc))
}

fn replay_command<'a>(alloc: Global) -> Result<Command<'a>, AllocError> {
    Command::new(alloc, "replay")
        .about("Plays a script on a chart and prints what each command answers")
        .after_help(REPLAY_NOTES)
        .arg(strict_argument(alloc))?
        .arg(chart_argument(alloc))?
        .arg(script_argument(alloc))
}

fn debug_command<'a>(alloc: Global) -> Result<Command<'a>, AllocError> {
    Command::new(alloc, "debug")
        .about("Steps a chart by hand in virtual time, with a session on standard input")
        .after_help(DEBUG_NOTES)
        .arg(debug_record_argument(alloc))?
        .arg(chart_argument(alloc))
}

// The argument that names the file in which a session is recorded.
fn debug_record_argument<'a>(alloc: Global) -> Arg<'a> {
    Arg::new(alloc, "record")
        .long("record")
        .value_name("SCRIPT")
        .help("Writes the accepted commands to a new file as they come, a script for 'replay'")
}

fn lsp_command<'a>(alloc: Global) -> Command<'a> {
    Command::new(alloc, "lsp")
        .about(
            "Serves an editor by the Language Server Protocol, on standard input and standard output",
        )
        .after_help(LSP_NOTES)
}

fn dap_command<'a>(alloc: Global) -> Command<'a> {
    Command::new(alloc, "dap")
        .about(
            "Lets an editor debug a chart by the Debug Adapter Protocol, on standard input and standard output",
        )
        .after_help(DAP_NOTES)
}

// The argument that says which commands have lines.
fn trace_argument<'a>(alloc: Global) -> Arg<'a> {
    Arg::new(alloc, "trace")
        .long("trace")
        .value_name("N")
        .value_parser(ValueParser::Unsigned(0, 127))
        .default_value("127")
        .help(
            "Which commands have lines: a sum of the numbers below, 0 to 127; with --show or --watch none has without it",
        )
}

// The argument by which it is shown what changes.
fn show_argument<'a>(alloc: Global) -> Arg<'a> {
    Arg::new(alloc, "show")
        .long("show")
        .value_name("changes")
        .help(
            "Shows each scan that changes steps, cleared transitions, executed actions or outputs, and what it changes",
        )
}

// The argument that names variables that are shown where they change.
fn watch_argument<'a>(alloc: Global) -> Arg<'a> {
    Arg::new(alloc, "watch")
        .long("watch")
        .value_name("NAME,..")
        .action(ArgAction::Append)
        .help("Shows these variables where they change, each as NAME VALUE")
}

// The argument that says what is shown at a fault and at the end.
fn at_end_argument<'a>(alloc: Global) -> Arg<'a> {
    Arg::new(alloc, "at-end")
        .long("at-end")
        .value_name("NAME=VALUE,..")
        .action(ArgAction::Append)
        .help(
            "Shows these values, each as NAME VALUE, where a fault ends a program's scan, and at the end",
        )
}

// The argument that says how many commands may be held.
fn history_argument<'a>(alloc: Global) -> Arg<'a> {
    Arg::new(alloc, "history")
        .long("history")
        .value_name("N")
        .value_parser(ValueParser::Unsigned(65_536, 1_048_576))
        .default_value("1048576")
        .help(
            "How many commands may be held, 65536 to 1048576; at half of them the run sends EPOCH",
        )
}

// The argument that says how long a run lasts.
fn for_argument<'a>(alloc: Global) -> Arg<'a> {
    Arg::new(alloc, "for").long("for").value_name("TIME").help(
        "Ends so long after the start, such as T#8h, by END; the end of input ends nothing",
    )
}

// The argument by which a run lasts until a signal ends it.
fn forever_argument<'a>(alloc: Global) -> Result<Arg<'a>, AllocError> {
    Arg::new(alloc, "forever")
        .long("forever")
        .action(ArgAction::SetTrue)
        .help("Goes on until a signal ends the process; the end of input ends nothing")
        .conflicts_with("for")
}

// The argument by which it is told how late scans were.
fn timing_argument<'a>(alloc: Global) -> Arg<'a> {
    Arg::new(alloc, "timing")
        .long("timing")
        .action(ArgAction::SetTrue)
        .help(
            "Tells at the end, on standard error, how late the scans of each task were, and how long the longest took",
        )
}

// The argument that names the file in which a run is recorded.
fn run_record_argument<'a>(alloc: Global) -> Arg<'a> {
    Arg::new(alloc, "record")
        .long("record")
        .value_name("SCRIPT")
        .help("Writes the accepted commands to a new file as they come, a script for 'replay'")
}

// The argument that says how long a part of a record is.
fn record_size_argument<'a>(alloc: Global) -> Result<Arg<'a>, AllocError> {
    Arg::new(alloc, "record-size")
        .long("record-size")
        .value_name("BYTES")
        .value_parser(ValueParser::Unsigned(1024, 1_099_511_627_776))
        .help(
            "How many bytes SCRIPT has at most, 1024 or more; SCRIPT.2, SCRIPT.3 and so on go on with it",
        )
        .requires_arg("record")
}

fn run_command<'a>(alloc: Global) -> Result<Command<'a>, AllocError> {
    Command::new(alloc, "run")
        .about(
            "Runs a chart in real time, with a session on standard input, and audits the run at its end",
        )
        .after_help(RUN_NOTES)
        .arg(trace_argument(alloc))?
        .arg(history_argument(alloc))?
        .arg(for_argument(alloc))?
        .arg(forever_argument(alloc)?)?
        .arg(show_argument(alloc))?
        .arg(watch_argument(alloc))?
        .arg(at_end_argument(alloc))?
        .arg(timing_argument(alloc))?
        .arg(run_record_argument(alloc))?
        .arg(record_size_argument(alloc)?)?
        .arg(chart_argument(alloc))
}

// The argument that names a program type.
fn program_argument<'a>(alloc: Global) -> Arg<'a> {
    Arg::new(alloc, "program")
        .long("program")
        .value_name("TYPE")
        .help("Draws this program type alone, or its instances")
}

// The argument that names the script behind which instances are drawn.
fn after_argument<'a>(alloc: Global) -> Arg<'a> {
    Arg::new(alloc, "after")
        .long("after")
        .value_name("SCRIPT")
        .help("Draws the program instances as they stand when this script has been played")
}

// The argument that names a script of which is asked what it reaches.
fn cover_argument<'a>(alloc: Global) -> Result<Arg<'a>, AllocError> {
    Arg::new(alloc, "cover")
        .long("cover")
        .value_name("SCRIPT")
        .action(ArgAction::Append)
        .help(
            "Draws the program instances and marks what this script never reaches; may be given several times",
        )
        .conflicts_with("after")?
        .conflicts_with("dot")
}

// The argument by which a chart is drawn for Graphviz.
fn dot_argument<'a>(alloc: Global) -> Arg<'a> {
    Arg::new(alloc, "dot")
        .long("dot")
        .action(ArgAction::SetTrue)
        .help("Draws for dot of Graphviz, and not as SVG")
}

fn draw_command<'a>(alloc: Global) -> Result<Command<'a>, AllocError> {
    Command::new(alloc, "draw")
        .about("Draws a chart as SVG: steps, transitions, action blocks")
        .after_help(DRAW_NOTES)
        .arg(program_argument(alloc))?
        .arg(after_argument(alloc))?
        .arg(cover_argument(alloc)?)?
        .arg(dot_argument(alloc))?
        .arg(chart_argument(alloc))
}

// The argument that names the file of a script.
fn script_argument<'a>(alloc: Global) -> Arg<'a> {
    Arg::new(alloc, "SCRIPT").required(true).help(
        "The script, lines of an instant and a command such as T#10ms SCAN Main",
    )
}

// The argument by which a waveform has the instants of the script.
fn raw_argument<'a>(alloc: Global) -> Arg<'a> {
    Arg::new(alloc, "raw")
        .long("raw")
        .action(ArgAction::SetTrue)
        .help("Shows the instants of the script, so that a halt takes time")
}

// The argument by which a waveform is a picture.
fn picture_argument<'a>(alloc: Global) -> Arg<'a> {
    Arg::new(alloc, "svg")
        .long("svg")
        .action(ArgAction::SetTrue)
        .help("Prints a picture in SVG")
}

// The argument that names signals.
fn only_argument<'a>(alloc: Global) -> Arg<'a> {
    Arg::new(alloc, "only")
        .long("only")
        .value_name("NAME,..")
        .action(ArgAction::Append)
        .help("Shows these signals alone, or those of what is named")
}

// The argument that names the file for the save file of GTKWave.
fn view_argument<'a>(alloc: Global) -> Arg<'a> {
    Arg::new(alloc, "gtkw").long("gtkw").value_name("SAVE").help(
        "Writes a save file of GTKWave with inputs, steps and outputs",
    )
}

fn wave_command<'a>(alloc: Global) -> Result<Command<'a>, AllocError> {
    Command::new(alloc, "wave")
        .about("Plays a script on a chart and prints its signals as a Value Change Dump")
        .after_help(WAVE_NOTES)
        .arg(raw_argument(alloc))?
        .arg(picture_argument(alloc))?
        .arg(only_argument(alloc))?
        .arg(view_argument(alloc))?
        .arg(chart_argument(alloc))?
        .arg(script_argument(alloc))
}

// The argument that says how much is wanted.
fn min_argument<'a>(alloc: Global) -> Arg<'a> {
    Arg::new(alloc, "min")
        .long("min")
        .value_name("PERCENT")
        .value_parser(ValueParser::Unsigned(0, 100))
        .default_value("0")
        .help("Ends with status 1 where less than this was reached in total, 0 to 100")
}

fn cover_command<'a>(alloc: Global) -> Result<Command<'a>, AllocError> {
    let scripts = Arg::new(alloc, "SCRIPT")
        .required(true)
        .num_args(1..)
        .help("The scripts");
    Command::new(alloc, "cover")
        .about("Plays scripts on a chart and prints what of it they never reached together")
        .after_help(COVER_NOTES)
        .arg(min_argument(alloc))?
        .arg(chart_argument(alloc))?
        .arg(scripts)
}

// The argument that picks cases by their names.
fn filter_argument<'a>(alloc: Global) -> Arg<'a> {
    Arg::new(alloc, "filter")
        .long("filter")
        .value_name("WORD")
        .help("Takes the cases alone whose names have this in them")
}

// The argument by which cases are listed.
fn list_argument<'a>(alloc: Global) -> Arg<'a> {
    Arg::new(alloc, "list")
        .long("list")
        .action(ArgAction::SetTrue)
        .help("Prints the names of the cases, and runs none")
}

// The argument by which results are told for other tools.
fn tap_argument<'a>(alloc: Global) -> Arg<'a> {
    Arg::new(alloc, "tap")
        .long("tap")
        .action(ArgAction::SetTrue)
        .help("Tells the results as the Test Anything Protocol has it, for prove and the like")
}

// The argument that names a file for the results.
fn junit_argument<'a>(alloc: Global) -> Arg<'a> {
    Arg::new(alloc, "junit")
        .long("junit")
        .value_name("FILE")
        .help("Writes the results to this file too, as the XML of JUnit")
}

// The argument that says how much all cases have to reach.
fn reach_argument<'a>(alloc: Global) -> Arg<'a> {
    Arg::new(alloc, "cover")
        .long("cover")
        .value_name("PERCENT")
        .value_parser(ValueParser::Unsigned(0, 100))
        .help(
            "Prints what the cases never reach together, and ends with status 1 where that is less than this in total, 0 to 100",
        )
}

// The argument that names a file for the signals of a case.
fn failed_wave_argument<'a>(alloc: Global) -> Arg<'a> {
    Arg::new(alloc, "wave").long("wave").value_name("FILE").help(
        "Writes the signals of the first case that fails to this file, as a Value Change Dump",
    )
}

// The argument that names a file for the script of a case.
fn failed_script_argument<'a>(alloc: Global) -> Arg<'a> {
    Arg::new(alloc, "script")
        .long("script")
        .value_name("FILE")
        .help("Writes the commands of the first case that fails to this file, as a script")
}

fn test_command<'a>(alloc: Global) -> Result<Command<'a>, AllocError> {
    let files = Arg::new(alloc, "TESTS")
        .required(true)
        .num_args(1..)
        .help("The files of tests");
    Command::new(alloc, "test")
        .about(
            "Runs the cases of files of tests on a chart, and tells of each whether all holds that must",
        )
        .after_help(TEST_NOTES)
        .arg(filter_argument(alloc))?
        .arg(list_argument(alloc))?
        .arg(tap_argument(alloc))?
        .arg(junit_argument(alloc))?
        .arg(reach_argument(alloc))?
        .arg(failed_wave_argument(alloc))?
        .arg(failed_script_argument(alloc))?
        .arg(chart_argument(alloc))?
        .arg(files)
}

fn report_command<'a>(alloc: Global) -> Result<Command<'a>, AllocError> {
    let scripts = Arg::new(alloc, "SCRIPT").num_args(0..).help(
        "The scripts; a file whose name ends with .sfctest has tests",
    );
    Command::new(alloc, "report")
        .about(
            "Prints a page in HTML that shows a chart and what came of scripts on it, as a record to sign",
        )
        .after_help(REPORT_NOTES)
        .arg(chart_argument(alloc))?
        .arg(scripts)
}

fn explain_command<'a>(alloc: Global) -> Result<Command<'a>, AllocError> {
    let name = Arg::new(alloc, "NAME").num_args(1..).help(
        "A number such as 14 or a name such as NoInitial, whatever the case of its letters",
    );
    Command::new(alloc, "explain")
        .about(
            "Tells what a refusal or a fault means, with its usual cause and an example; without a name, lists all",
        )
        .after_help(EXPLAIN_NOTES)
        .arg(name)
}

// The command with one more command, if that could be made.
fn with_command<'a>(
    command: Command<'a>,
    more: Result<Command<'a>, AllocError>,
) -> Result<Command<'a>, AllocError> {
    command.subcommand(more?)
}

fn why_command<'a>(alloc: Global) -> Result<Command<'a>, AllocError> {
    let script = Arg::new(alloc, "SCRIPT").help(
        "The script or the file of tests (.sfctest), where its first fault is asked for",
    );
    let all = Arg::new(alloc, "all")
        .long("all")
        .action(ArgAction::SetTrue)
        .help("Tells all faults of the chart, up to a hundred");
    Command::new(alloc, "why")
        .about(
            "Tells where the first fault of a chart, or else of a script or of tests, is, and what may be meant",
        )
        .after_help(WHY_NOTES)
        .arg(all)?
        .arg(chart_argument(alloc))?
        .arg(script)
}

// The program without its commands.
fn bare_command<'a>(alloc: Global) -> Result<Command<'a>, AllocError> {
    let command = Command::new(alloc, "sfcmon").bin_name("sfcmon")?;
    Ok(
        command
            .version(VERSION)
            .about(
                "Runs Sequential Function Charts (IEC 61131-3:2003) exactly as their definitions say",
            )
            .after_help(NOTES)
            .subcommand_required(true)
            .arg_required_else_help(true),
    )
}

// With the commands that take a chart alone.
fn with_chart_commands<'a>(alloc: Global, command: Command<'a>) -> Result<Command<'a>, AllocError> {
    let command = with_command(command, check_command(alloc))?;
    let command = with_command(command, lint_command(alloc))?;
    let command = with_command(command, list_command(alloc))?;
    with_command(command, why_command(alloc))
}

// With the commands whose output other tools show.
fn with_picture_commands<'a>(
    alloc: Global,
    command: Command<'a>,
) -> Result<Command<'a>, AllocError> {
    let command = with_command(command, draw_command(alloc))?;
    with_command(command, wave_command(alloc))
}

fn sfcmon_command<'a>(alloc: Global) -> Result<Command<'a>, AllocError> {
    let command = with_chart_commands(alloc, bare_command(alloc)?)?;
    let command = with_command(command, replay_command(alloc))?;
    let command = with_command(command, run_command(alloc))?;
    let command = with_command(command, debug_command(alloc))?;
    let command = with_command(command, Ok(lsp_command(alloc)))?;
    let command = with_command(command, Ok(dap_command(alloc)))?;
    let command = with_picture_commands(alloc, command)?;
    let command = with_command(command, cover_command(alloc))?;
    let command = with_command(command, test_command(alloc))?;
    let command = with_command(command, report_command(alloc))?;
    with_command(command, explain_command(alloc))
}

// The words with a blank between any two.
fn joined(alloc: Global, words: &[&str]) -> Result<String, AllocError> {
    let mut text = String::new(alloc);
    for word in words {
        if !text.is_empty() {
            text.push(' ')?;
        }
        text.push_str(word)?;
    }
    Ok(text)
}

// What `explain` was asked for.
fn explain_request(alloc: Global, names: Option<&[&str]>) -> Result<Request, AllocError> {
    match names {
        Some(names) => {
            let word = joined(alloc, names)?;
            Ok(Request::Explain { word })
        }
        None => Ok(Request::ListExplanations),
    }
}

// A chart to be checked, where one is named.
fn check_request(alloc: Global, matches: &ArgMatches) -> Result<Request, AllocError> {
    match matches.get_str("FILE") {
        Some(chart) => {
            let chart = String::from_str(alloc, chart)?;
            Ok(Request::Check { chart })
        }
        None => Ok(Request::Answered(2)),
    }
}

// A chart to be listed, where one is named.
fn list_request(alloc: Global, matches: &ArgMatches) -> Result<Request, AllocError> {
    match matches.get_str("FILE") {
        Some(chart) => {
            let chart = String::from_str(alloc, chart)?;
            Ok(Request::List { chart })
        }
        None => Ok(Request::Answered(2)),
    }
}

// A script to be played on a chart, where both are named.
fn replay_request(alloc: Global, matches: &ArgMatches) -> Result<Request, AllocError> {
    match (matches.get_str("FILE"), matches.get_str("SCRIPT")) {
        (Some(chart), Some(script)) => {
            let chart = String::from_str(alloc, chart)?;
            let script = String::from_str(alloc, script)?;
            let strict = matches.get_flag("strict");
            Ok(Request::Replay(Playing {
                chart,
                script,
                strict,
            }))
        }
        _ => Ok(Request::Answered(2)),
    }
}

// A chart whose fault is asked for, where one is named.
fn why_request(alloc: Global, matches: &ArgMatches) -> Result<Request, AllocError> {
    let Some(chart) = matches.get_str("FILE") else {
        return Ok(Request::Answered(2));
    };
    let chart = String::from_str(alloc, chart)?;
    let script = match matches.get_str("SCRIPT") {
        Some(script) => Some(String::from_str(alloc, script)?),
        None => None,
    };
    let all = matches.get_flag("all");
    Ok(Request::Why(Asking { chart, script, all }))
}

// Whether a word is no kind of warnings, nor `all` where that may stand.
fn is_no_kind(word: &str, may_be_all: bool) -> bool {
    kind_named(word.as_bytes()).is_none() && !(may_be_all && word == "all")
}

// The kinds that an option names; the error is in clap's form.
fn kinds_of(alloc: Global, matches: &ArgMatches, name: &str) -> Result<Vec<String>, Error> {
    let words = matches.get_strs(name).unwrap_or(&[]);
    for word in words {
        if is_no_kind(word, name == "deny") {
            return Err(invalid(
                alloc,
                "there is no such kind of warnings; 'sfcmon lint --help' lists all",
            )?);
        }
    }
    Ok(owned(alloc, words)?)
}

// A chart whose warnings are asked for, where one is named.
fn lint_request(alloc: Global, matches: &ArgMatches) -> Result<Request, Error> {
    match (matches.get_str("FILE"), matches.get_one::<usize>("limit")) {
        (Some(chart), Some(limit)) => Ok(Request::Lint(Linting {
            chart: String::from_str(alloc, chart)?,
            denied: kinds_of(alloc, matches, "deny")?,
            allowed: kinds_of(alloc, matches, "allow")?,
            limit,
        })),
        _ => Ok(Request::Answered(2)),
    }
}

// That the words are wrong, in clap's form.
fn invalid(alloc: Global, text: &str) -> Result<Error, AllocError> {
    let mut command = sfcmon_command(alloc)?;
    command.error(ErrorKind::InvalidValue, text)
}

// How long a run lasts; `None` where its time is none.
fn lasting_of(matches: &ArgMatches) -> Option<Lasting> {
    if matches.get_flag("forever") {
        return Some(Lasting::Forever);
    }
    let Some(time) = matches.get_str("for") else {
        return Some(Lasting::Input);
    };
    match duration(time.as_bytes()) {
        Some(micros) if 0 < micros => Some(Lasting::For(micros.unsigned_abs())),
        _ => None,
    }
}

// Whether it is shown what changes; `None` where another word stands there.
fn shows_changes(matches: &ArgMatches) -> Option<bool> {
    match matches.get_str("show") {
        None => Some(false),
        Some("changes") => Some(true),
        Some(_) => None,
    }
}

// The names of an option that may be given several times, each with commas between its names.
fn names_of(alloc: Global, matches: &ArgMatches, name: &str) -> Result<Vec<String>, AllocError> {
    match matches.get_strs(name) {
        Some(words) => names_in(alloc, words),
        None => Ok(Vec::new(alloc)),
    }
}

// Which commands of a run have lines: none where something is shown instead, and the mask isn't given.
fn lines_of(mask: u8, is_given: bool, is_shown: bool) -> TraceMask {
    if is_shown && !is_given {
        TraceMask(0)
    } else {
        TraceMask(mask)
    }
}

// How many bytes a part of a record has at most.
fn record_size_of(matches: &ArgMatches) -> usize {
    matches
        .get_one::<usize>("record-size")
        .unwrap_or(usize::MAX)
}

// A chart to be run, where one is named.
fn run_request(alloc: Global, matches: &ArgMatches) -> Result<Request, Error> {
    let Some(lasting) = lasting_of(matches) else {
        return Err(invalid(alloc, "--for wants a time above zero, such as T#8h")?);
    };
    let Some(changes) = shows_changes(matches) else {
        return Err(invalid(alloc, "--show wants the word 'changes'")?);
    };
    let watched = names_of(alloc, matches, "watch")?;
    let is_shown = changes || !watched.is_empty();
    let is_given = matches.value_source("trace") == Some(ValueSource::CommandLine);
    match (
        matches.get_str("FILE"),
        matches.get_one::<u8>("trace"),
        matches.get_one::<usize>("history"),
    ) {
        (Some(chart), Some(mask), Some(history)) => Ok(Request::Run(Running {
            chart: String::from_str(alloc, chart)?,
            mask: lines_of(mask, is_given, is_shown),
            has_mask: is_given,
            history,
            lasting,
            changes,
            watched,
            at_end: names_of(alloc, matches, "at-end")?,
            timing: matches.get_flag("timing"),
            record: option_of(alloc, matches, "record")?,
            record_size: record_size_of(matches),
        })),
        _ => Ok(Request::Answered(2)),
    }
}

// A chart to be stepped by hand, where one is named.
fn debug_request(alloc: Global, matches: &ArgMatches) -> Result<Request, AllocError> {
    match matches.get_str("FILE") {
        Some(chart) => Ok(Request::Debug(Debugging {
            chart: String::from_str(alloc, chart)?,
            record: option_of(alloc, matches, "record")?,
        })),
        None => Ok(Request::Answered(2)),
    }
}

// The value of an option, where it was given.
fn option_of(
    alloc: Global,
    matches: &ArgMatches,
    name: &str,
) -> Result<Option<String>, AllocError> {
    match matches.get_str(name) {
        Some(value) => Ok(Some(String::from_str(alloc, value)?)),
        None => Ok(None),
    }
}

// What a drawing is to show.
fn shown_of(alloc: Global, matches: &ArgMatches) -> Result<Shown, AllocError> {
    if let Some(scripts) = matches.get_strs("cover") {
        return Ok(Shown::Covered(owned(alloc, scripts)?));
    }
    match option_of(alloc, matches, "after")? {
        Some(script) => Ok(Shown::After(script)),
        None => Ok(Shown::Types),
    }
}

// A chart to be drawn, where one is named.
fn draw_request(alloc: Global, matches: &ArgMatches) -> Result<Request, AllocError> {
    match matches.get_str("FILE") {
        Some(chart) => Ok(Request::Draw(Drawing {
            chart: String::from_str(alloc, chart)?,
            program: option_of(alloc, matches, "program")?,
            shown: shown_of(alloc, matches)?,
            is_dot: matches.get_flag("dot"),
        })),
        None => Ok(Request::Answered(2)),
    }
}

// The names in these words, which stand with commas between them.
fn names_in(alloc: Global, words: &[&str]) -> Result<Vec<String>, AllocError> {
    let mut names = Vec::new(alloc);
    for word in words {
        for name in word.split(',') {
            names.push(String::from_str(alloc, name)?)?;
        }
    }
    Ok(names)
}

// A word as a text of its own, where there is one.
fn owned_word(alloc: Global, word: Option<&str>) -> Result<Option<String>, AllocError> {
    match word {
        Some(word) => Ok(Some(String::from_str(alloc, word)?)),
        None => Ok(None),
    }
}

// A waveform, where chart and script are named.
fn wave_request(alloc: Global, matches: &ArgMatches) -> Result<Request, AllocError> {
    let (Some(chart), Some(script)) = (matches.get_str("FILE"), matches.get_str("SCRIPT")) else {
        return Ok(Request::Answered(2));
    };
    let instants = if matches.get_flag("raw") {
        Instants::Raw
    } else {
        Instants::Run
    };
    let form = if matches.get_flag("svg") {
        Form::Picture
    } else {
        Form::Dump
    };
    let only = names_of(alloc, matches, "only")?;
    Ok(Request::Wave(Waving {
        chart: String::from_str(alloc, chart)?,
        script: String::from_str(alloc, script)?,
        instants,
        form,
        only,
        view: owned_word(alloc, matches.get_str("gtkw"))?,
    }))
}

// The words as texts of their own.
fn owned(alloc: Global, words: &[&str]) -> Result<Vec<String>, AllocError> {
    let mut texts = Vec::new(alloc);
    for word in words {
        texts.push(String::from_str(alloc, word)?)?;
    }
    Ok(texts)
}

// Scripts on a chart, where both are named.
fn cover_request(alloc: Global, matches: &ArgMatches) -> Result<Request, AllocError> {
    match (
        matches.get_str("FILE"),
        matches.get_strs("SCRIPT"),
        matches.get_one::<u8>("min"),
    ) {
        (Some(chart), Some(scripts), Some(least)) => Ok(Request::Cover(Covering {
            chart: String::from_str(alloc, chart)?,
            scripts: owned(alloc, scripts)?,
            least,
        })),
        _ => Ok(Request::Answered(2)),
    }
}

// Tests of a chart, where both are named.
fn test_request(alloc: Global, matches: &ArgMatches) -> Result<Request, AllocError> {
    match (matches.get_str("FILE"), matches.get_strs("TESTS")) {
        (Some(chart), Some(files)) => Ok(Request::Test(Testing {
            chart: String::from_str(alloc, chart)?,
            files: owned(alloc, files)?,
            filter: option_of(alloc, matches, "filter")?,
            is_list: matches.get_flag("list"),
            is_tap: matches.get_flag("tap"),
            junit: option_of(alloc, matches, "junit")?,
            cover: matches.get_one::<u8>("cover"),
            wave: option_of(alloc, matches, "wave")?,
            script: option_of(alloc, matches, "script")?,
        })),
        _ => Ok(Request::Answered(2)),
    }
}

// Those of these names that are of files of tests, or those that aren't.
fn names_where(alloc: Global, names: &[&str], are_tests: bool) -> Result<Vec<String>, AllocError> {
    let mut found = Vec::new(alloc);
    for name in names {
        if name.ends_with(".sfctest") == are_tests {
            found.push(String::from_str(alloc, name)?)?;
        }
    }
    Ok(found)
}

// A report, where the chart is named.
fn report_request(alloc: Global, matches: &ArgMatches) -> Result<Request, AllocError> {
    let Some(chart) = matches.get_str("FILE") else {
        return Ok(Request::Answered(2));
    };
    let names = matches.get_strs("SCRIPT").unwrap_or(&[]);
    Ok(Request::Report(Reporting {
        chart: String::from_str(alloc, chart)?,
        scripts: names_where(alloc, names, false)?,
        tests: names_where(alloc, names, true)?,
    }))
}

// What the words that matched ask for.
fn request_of(alloc: Global, matches: &ArgMatches) -> Result<Request, Error> {
    if let Some(check) = matches.subcommand_matches("check") {
        return Ok(check_request(alloc, check)?);
    }
    if let Some(list) = matches.subcommand_matches("list") {
        return Ok(list_request(alloc, list)?);
    }
    if let Some(lint) = matches.subcommand_matches("lint") {
        return lint_request(alloc, lint);
    }
    if let Some(why) = matches.subcommand_matches("why") {
        return Ok(why_request(alloc, why)?);
    }
    if let Some(replay) = matches.subcommand_matches("replay") {
        return Ok(replay_request(alloc, replay)?);
    }
    if let Some(run) = matches.subcommand_matches("run") {
        return run_request(alloc, run);
    }
    if let Some(debug) = matches.subcommand_matches("debug") {
        return Ok(debug_request(alloc, debug)?);
    }
    if matches.subcommand_matches("lsp").is_some() {
        return Ok(Request::Lsp);
    }
    if matches.subcommand_matches("dap").is_some() {
        return Ok(Request::Dap);
    }
    if let Some(draw) = matches.subcommand_matches("draw") {
        return Ok(draw_request(alloc, draw)?);
    }
    if let Some(wave) = matches.subcommand_matches("wave") {
        return Ok(wave_request(alloc, wave)?);
    }
    if let Some(cover) = matches.subcommand_matches("cover") {
        return Ok(cover_request(alloc, cover)?);
    }
    if let Some(test) = matches.subcommand_matches("test") {
        return Ok(test_request(alloc, test)?);
    }
    if let Some(report) = matches.subcommand_matches("report") {
        return Ok(report_request(alloc, report)?);
    }
    if let Some(explain) = matches.subcommand_matches("explain") {
        return Ok(explain_request(alloc, explain.get_strs("NAME"))?);
    }
    Ok(Request::Answered(2))
}

fn parsed(alloc: Global, words: &[String]) -> Result<Request, Error> {
    let command = sfcmon_command(alloc)?;
    let matches = command.try_get_matches_from(words)?;
    request_of(alloc, &matches)
}

// Prints what clap has to say; the exit status.
fn answer<R: Print + Eprint>(rt: &R, error: &Error) -> u8 {
    if error.kind() == ErrorKind::OutOfMemory {
        return end_with(rt, ReplayError::Memory);
    }
    match error.print(rt) {
        Ok(()) if error.use_stderr() => 2,
        Ok(()) => 0,
        Err(_) => 3,
    }
}

/// Tells that a word of the command line isn't UTF-8, in clap's form: the exit status.
pub fn refuse_words<R: Print + Eprint + AllocGlobal>(rt: &R) -> u8 {
    match invalid(
        rt.alloc(),
        "invalid UTF-8 was detected in one or more arguments",
    ) {
        Ok(error) => answer(rt, &error),
        Err(_) => end_with(rt, ReplayError::Memory),
    }
}

/// What the words ask for; clap's text and status where they ask for help or the version, or are wrong.
pub fn read_words<R: Print + Eprint + AllocGlobal>(rt: &R, words: &[String]) -> Request {
    match parsed(rt.alloc(), words) {
        Ok(request) => request,
        Err(error) => Request::Answered(answer(rt, &error)),
    }
}
