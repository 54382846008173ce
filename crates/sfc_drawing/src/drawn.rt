//! What is drawn, as a value: each element with all its numbers and texts. In pixels from the left and the top of its sheet, where it
//! has one, else of the drawing.

use sfc_base::items::Items;
use sfc_layout::drawing::Drawing;
use sfc_layout::node_box::NodeBox;

/// Where the left upper corner of a sheet stands in the drawing.
#[derive(Clone, Copy, Debug, PartialEq, Eq)]
pub struct Corner {
    pub left: u32,
    pub top: u32,
}

/// A text with its place.
#[derive(Drop)]
pub struct Line {
    pub x: u32,
    pub y: u32,
    pub text: Items<u8>,
}

/// A line that belongs to a node: between it and those of its links.
#[derive(Clone, Copy, Debug, PartialEq, Eq)]
pub enum Own {
    /// From top to bottom.
    Stem { x: u32, top: u32, bottom: u32 },
    /// From left to right, where a selection begins or ends.
    Single { left: u32, right: u32, y: u32 },
    /// A double line from left to right, where simultaneous sequences begin or end.
    Double { left: u32, right: u32, y: u32 },
}

/// A line of an action block (2.6.4.3): the fields qualifier, time, action and indicators.
#[derive(Drop)]
pub struct DrawnRow {
    pub qualifier: Items<u8>,
    pub time: Items<u8>,
    pub action: Items<u8>,
    pub indicators: Items<u8>,
    /// Whether the action has a body, and is no variable.
    pub has_body: bool,
    pub top: u32,
    pub mark: ActionMark,
}

/// How wide the fields of an action block are; 0 where no line of it has the field.
#[derive(Clone, Copy, Debug, PartialEq, Eq)]
pub struct Columns {
    pub qualifier: u32,
    pub time: u32,
    pub action: u32,
    pub indicators: u32,
}

/// What is told of an action.
#[derive(Clone, Copy, Debug, PartialEq, Eq)]
pub struct ActionMark {
    /// The latest scan executed it.
    pub is_executed: bool,
    /// It is a variable that is forced.
    pub is_forced: bool,
    /// No scan that was looked at executed it.
    pub is_never: bool,
}

/// What is told of a step.
#[derive(Drop)]
pub struct StepMark {
    pub is_active: bool,
    /// For how long, where it is active.
    pub time: Items<u8>,
    /// It was active after no scan that was looked at.
    pub is_never: bool,
}

/// What is told of a transition.
#[derive(Clone, Copy, Debug, PartialEq, Eq)]
pub struct TransitionMark {
    /// All its preceding steps are active.
    pub is_enabled: bool,
    /// The latest scan cleared it.
    pub is_cleared: bool,
    /// No scan that was looked at cleared it.
    pub is_never: bool,
}

/// The arrow at which jumps come to a step: how far down, and the transitions from which they come.
#[derive(Drop)]
pub struct Entry {
    pub y: u32,
    pub from: Items<u8>,
}

/// A step with its action block (2.6.2, 2.6.4).
#[derive(Drop)]
pub struct DrawnStep {
    pub name: Items<u8>,
    pub is_initial: bool,
    pub sheet: Corner,
    pub place: NodeBox,
    pub own: Items<Own>,
    /// The arrow at which jumps come to it, if some do.
    pub entry: Option<Entry>,
    /// How far down its branches hang, where there are several: they win from left to right (2.6.5).
    pub branches: Option<u32>,
    pub columns: Columns,
    pub rows: Items<DrawnRow>,
    pub mark: StepMark,
}

/// The arrow by which links without a line come to a double line: the names of their steps stand beside it.
#[derive(Drop)]
pub struct Stubs {
    pub x: u32,
    pub top: u32,
    pub bottom: u32,
    pub names: Items<Line>,
}

/// A transition with its condition (2.6.3).
#[derive(Drop)]
pub struct DrawnTransition {
    pub name: Option<Items<u8>>,
    pub priority: Option<u32>,
    pub condition: Items<u8>,
    pub sheet: Corner,
    pub place: NodeBox,
    pub own: Items<Own>,
    /// What stands beside its bar.
    pub lines: Items<Line>,
    pub stubs: Option<Stubs>,
    pub mark: TransitionMark,
}

/// An end of a link.
#[derive(Drop)]
pub enum End {
    /// The step of this name.
    Step(Items<u8>),
    /// The transition with this number, counted from 1.
    Transition(u64),
}

/// A link between a step and a transition.
#[derive(Drop)]
pub struct DrawnLink {
    pub source: End,
    pub target: End,
    pub sheet: Corner,
    pub drawing: Drawing,
    /// Where loops come to its target, and the line of that.
    pub entry: u32,
    pub line: u32,
    /// The priority that is said at it.
    pub priority: Option<u32>,
}

/// The body of a declared action (2.6.4.1).
#[derive(Drop)]
pub struct DrawnBody {
    pub name: Items<u8>,
    pub left: u32,
    pub top: u32,
    pub width: u32,
    pub height: u32,
    pub lines: Items<Line>,
    pub mark: ActionMark,
}

/// A chart.
#[derive(Drop)]
pub struct DrawnChart {
    /// What the ids of all its elements begin with.
    pub name: Items<u8>,
    /// What is told of all of it, behind its name.
    pub note: Items<u8>,
    pub corner: Corner,
    /// How far all of it goes to the right, and down.
    pub right: u32,
    pub bottom: u32,
    pub links: Items<DrawnLink>,
    pub steps: Items<DrawnStep>,
    pub transitions: Items<DrawnTransition>,
    pub bodies: Items<DrawnBody>,
}

/// Charts, one below the other.
#[derive(Drop)]
pub struct Picture {
    pub width: u32,
    pub height: u32,
    pub charts: Items<DrawnChart>,
}
