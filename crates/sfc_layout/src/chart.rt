//! A chart as numbers.

ghost use Rattle.std.specs.Prelude.{◌≡◌};
ghost use Rattle.sfc_layout.specs.Sizes.{step_extent, transition_extent};

use crate::extent::Extent;
use crate::sizes::BAR;

/// A step, with the sizes of what is drawn of it, in pixels.
#[derive(Clone, Copy, Debug, PartialEq, Eq)]
pub struct Step {
    pub initial: bool,
    /// The width of its name.
    pub name: u32,
    /// Half the width of its box.
    pub half: u16,
    /// The width of its action block; 0 where it has none.
    pub block: u32,
    /// The height of its action block.
    pub rows: u32,
}

impl Step {
    /// How far its box goes to the left and to the right of its line.
    pub(crate) fn extent(self) -> Extent
        ensures { result ≡ step_extent self }
    {
        let half = u32::from(self.half);
        Extent {
            left: half + 4,
            right: half,
        }
    }
}

/// A transition, with the sizes of what is drawn of it, in pixels.
#[derive(Clone, Copy, Debug, PartialEq, Eq)]
pub struct Transition {
    /// The width of its name, as a jump to it says it.
    pub name: u32,
    /// The width of its number, at the left of its bar.
    pub number: u16,
    /// The width of its text, at the right of its bar.
    pub text: u32,
    /// How far down its text goes below its first line.
    pub lines: u32,
    /// The width of its priority, where it has one.
    pub priority: Option<u32>,
}

impl Transition {
    /// How far its number and its bar go to the left and to the right of its line.
    pub(crate) fn extent(self) -> Extent
        ensures { result ≡ transition_extent self }
    {
        Extent {
            left: u32::from(self.number) + (BAR + 6),
            right: BAR,
        }
    }
}

/// A link from a step to a transition, or the other way. Nodes are numbered: the steps from 0 on, then the transitions.
#[derive(Clone, Copy, Debug, PartialEq, Eq)]
pub struct Link {
    pub source: usize,
    pub target: usize,
}

/// A chart: the transitions in the order of the text, the links by the rank of their transition, of each first those that
/// lead to it.
#[derive(Debug, Drop)]
pub struct Chart {
    pub steps: Vec<Step>,
    pub transitions: Vec<Transition>,
    pub links: Vec<Link>,
}
