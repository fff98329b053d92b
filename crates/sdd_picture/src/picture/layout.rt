//! Where things lie in a picture.

use crate::picture::model::Picture;
use crate::picture::style;
use std::alloc::AllocError;

/// Where things lie, in pixels from the left and from the top.
#[derive(Drop)]
pub struct Layout {
    pub lines: u64,
    pub column: u64,
    /// The upper edge of each participant's row, and the lower edge of its last lane.
    rows: Vec<Row>,
    items_top: u64,
    /// The lower edge of the last item.
    pub bottom: u64,
}

/// A participant's row.
#[derive(Clone, Copy)]
pub struct Row {
    pub top: u64,
    pub bottom: u64,
}

/// A rectangle.
#[derive(Clone, Copy)]
pub struct Area {
    pub x: u64,
    pub y: u64,
    pub width: u64,
    pub height: u64,
}

impl Layout {
    /// For the picture of so many lines.
    pub fn of(lines: usize, picture: &Picture, mut rows: Vec<Row>) -> Result<Layout, AllocError> {
        let mut top = style::ROWS_TOP;
        for participant in picture.participants.iter() {
            let lanes = (participant.lanes() as u64).max(1);
            let bottom = top.saturating_add(style::LANE.saturating_mul(lanes));
            rows.push(Row { top, bottom })?;
            top = bottom.saturating_add(style::ROW_GAP);
        }
        let items_top = top.saturating_add(style::ITEMS_GAP);
        let items = picture.items.len() as u64;
        Ok(Layout {
            lines: lines as u64,
            column: style::column_width(lines as u64),
            rows,
            items_top,
            bottom: items_top.saturating_add(style::ITEM.saturating_mul(items)),
        })
    }

    /// The left edge of a line's column.
    pub fn left(&self, line: u64) -> u64 {
        line.saturating_mul(self.column).saturating_add(style::LEFT)
    }

    /// The middle of a line's column.
    pub fn middle(&self, line: usize) -> u64 {
        self.left(line as u64).saturating_add(self.column / 2)
    }

    /// The middle of a line's column, or the right edge of the last one where there is no such line.
    pub fn middle_or_end(&self, line: Option<usize>) -> u64 {
        match line {
            Some(line) => self.middle(line),
            None => self.right(),
        }
    }

    /// The right edge of the last column.
    pub fn right(&self) -> u64 {
        self.left(self.lines)
    }

    pub fn width(&self) -> u64 {
        self.right()
            .saturating_add(style::RIGHT)
            .max(style::LEAST_WIDTH)
    }

    pub fn height(&self) -> u64 {
        self.bottom
            .saturating_add(style::KEY_GAP)
            .saturating_add(style::KEY_LINE)
            .saturating_add(style::KEY_LINE)
    }

    /// The row of a participant; that of one that is not there lies at the top.
    pub fn row(&self, participant: usize) -> Row {
        match self.rows.get(participant) {
            Some(row) => *row,
            None => Row { top: 0, bottom: 0 },
        }
    }

    /// The height at which a participant's life is drawn.
    pub fn life(&self, participant: usize) -> u64 {
        self.row(participant).top.saturating_add(style::BAR / 2)
    }

    /// The upper edge of a guard.
    pub fn lane(&self, participant: usize, lane: usize) -> u64 {
        let below = style::LANE.saturating_mul(lane as u64);
        self.row(participant).top.saturating_add(below)
    }

    /// The upper edge of an item's bar.
    pub fn item(&self, item: usize) -> u64 {
        let below = style::ITEM.saturating_mul(item as u64);
        self.items_top.saturating_add(below)
    }
}
