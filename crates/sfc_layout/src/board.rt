//! The boxes of nodes over a skyline.

ghost use Rattle.std.specs.Prelude.{◌≡◌, ◌<◌, ◌≤◌, ℕ, IfOk, OnOk, slice_set, slice_index_or, length};
ghost use Rattle.sfc_layout.specs.Skyline.{depth, IsWithin};
ghost use Rattle.sfc_layout.specs.Apart.{AreApart, AreCovered, AreUpTo};
ghost use Rattle.sfc_layout.specs.Sizes.{HasSize, SameBut};

use crate::draw_error::DrawError;
use crate::node_box::NodeBox;
use crate::node_room::NodeRoom;
use crate::skyline::{Reach, Skyline};
use std::alloc::{AllocError, Global};

/// The boxes of all nodes, and the skyline of the sheet that is drawn.
#[derive(Drop)]
pub struct Board {
    pub(crate) sky: Skyline,
    pub(crate) sheet: usize,
    pub(crate) boxes: Vec<NodeBox>,
    ghost covered: { AreCovered sky.cells.items sheet boxes.items },
    ghost apart: { AreApart boxes.items },
    ghost up_to: { AreUpTo sheet boxes.items },
}

impl Board {
    /// The first sheet, with nothing on it. The one error is that memory was refused.
    pub fn new(alloc: Global, nodes: usize) -> Result<Board, AllocError>
        ensures { IfOk result (λ board. length board.boxes.items ≡ nodes) }
    {
        Ok(Board {
            sky: Skyline::new(alloc),
            sheet: 0,
            boxes: vec![in alloc; NodeBox::NOWHERE; nodes]?,
        })
    }

    /// Goes on to the next sheet, with nothing on it.
    pub fn turn(&mut self, alloc: Global)
        ensures { self.new.boxes.items ≡ self.old.boxes.items }
    {
        if let Some(next) = self.sheet.checked_add(1) {
            self.sheet = next;
            self.sky = Skyline::new(alloc);
        }
    }

    /// How many boxes there are.
    pub fn count(&self) -> usize
        ensures { result ≡ length self.now.boxes.items }
    {
        self.boxes.as_slice().len()
    }

    /// How far down the box of a node goes.
    pub fn bottom(&self, node: usize) -> u32 {
        if node < self.boxes.len() {
            self.boxes[node].bottom
        } else {
            0
        }
    }

    /// The lowest that is taken on the sheet, in pixels from the top.
    pub fn lowest(&self) -> u32 {
        self.sky.lowest()
    }

    /// The lowest that is taken over this reach, in pixels from the top.
    pub fn top(&self, reach: Reach) -> u32
        ensures { (cell : ℕ) → IsWithin reach cell → depth self.now.sky cell ≤ result }
    {
        self.sky.top(reach)
    }

    /// Takes these cells down to `bottom`. The one error is that memory was refused.
    pub fn take(&mut self, reach: Reach, bottom: u32) -> Result<(), AllocError>
        ensures boxes { self.new.boxes.items ≡ self.old.boxes.items }
        ensures sheet { self.new.sheet ≡ self.old.sheet }
    {
        self.sky.take(reach, bottom)
    }

    /// Puts the box of a node on the sheet, where nothing is so far down. The one error is that memory was refused.
    pub fn put(&mut self, node: usize, placed: NodeBox) -> Result<(), AllocError>
        requires sheet { placed.sheet ≡ self.old.sheet }
        requires clear { (cell : ℕ) → IsWithin (record { left = placed.left; right = placed.right }) cell → depth self.old.sky cell ≤ placed.top }
        ensures { OnOk result (self.new.boxes.items ≡ slice_set self.old.boxes.items node placed) }
    {
        let reach = Reach {
            left: placed.left,
            right: placed.right,
        };
        self.sky.take(reach, placed.bottom)?;
        if node < self.boxes.len() {
            self.boxes[node] = placed;
        }
        Ok(())
    }

    /// Puts the box of a node below all that is over its room, from `least` on. Answers where it begins. The errors are that the
    /// drawing would be too large, or that memory was refused.
    pub fn settle(&mut self, node: usize, room: NodeRoom, least: u32) -> Result<u32, DrawError>
        ensures size { OnOk result (HasSize room.own room.height self.new.boxes.items node) }
        ensures others { OnOk result (SameBut node self.old.boxes.items self.new.boxes.items) }
    {
        let x = room.x.max(room.own.left);
        let Some(right) = x.checked_add(room.own.right) else {
            return Err(DrawError::TooLarge);
        };
        let left = x - room.own.left;
        let whole = Reach {
            left,
            right: x.saturating_add(room.right).max(right),
        };
        let top = self.top(whole).saturating_add(room.gap).max(least);
        let Some(bottom) = top.checked_add(room.height) else {
            return Err(DrawError::TooLarge);
        };
        let placed = NodeBox {
            sheet: self.sheet,
            x,
            left,
            right,
            top,
            bottom,
        };
        self.put(node, placed)?;
        Ok(top)
    }

    /// The same for a node whose box isn't of its size yet, below all that is on the sheet.
    pub fn settle_missing(&mut self, node: usize, room: NodeRoom) -> Result<(), DrawError>
        ensures size { OnOk result (HasSize room.own room.height self.new.boxes.items node) }
        ensures others { OnOk result (SameBut node self.old.boxes.items self.new.boxes.items) }
    {
        if node < self.boxes.len() && self.boxes[node].has_size(room.own, room.height) {
            return Ok(());
        }
        let least = self.lowest();
        self.settle(node, room, least)?;
        Ok(())
    }

    /// The boxes of all nodes.
    pub fn into_boxes(self) -> Vec<NodeBox>
        ensures boxes { result.items ≡ self.boxes.items }
        ensures apart { AreApart result.items }
    {
        let Board {
            sky: _,
            sheet: _,
            boxes,
        } = self;
        boxes
    }
}
