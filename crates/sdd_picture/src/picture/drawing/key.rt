//! The key below a picture: what its shapes mean.

use super::Drawing;
use crate::picture::layout::Area;
use crate::picture::model::Fate;
use crate::picture::style;
use crate::picture::svg::Point;
use std::alloc::AllocError;

impl Drawing {
    pub(super) fn key(&mut self) -> Result<(), AllocError> {
        let first = self.layout.bottom.saturating_add(style::KEY_GAP);
        let second = first.saturating_add(style::KEY_LINE);
        self.key_bar(entry(0, first), style::BAR, "a0", "guard, its epoch")?;
        self.key_bar(entry(1, first), style::BAR, "read a0", "count read")?;
        self.key_line(entry(2, first), "raise", "epoch raised")?;
        self.key_line(entry(3, first), "left", "left behind")?;
        self.key_arrow(entry(4, first), "adopted")?;
        self.key_bar(entry(0, second), style::ITEM_BAR, "use", "item in use")?;
        self.key_bar(
            entry(1, second),
            style::ITEM_BAR,
            "wait a0",
            "waits with p0",
        )?;
        self.key_mark(entry(2, second), Fate::Reclaimed, "reclaimed")?;
        self.key_mark(entry(3, second), Fate::DroppedInPlace, "dropped in place")
    }

    fn key_bar(
        &mut self,
        at: Point,
        height: u64,
        class: &str,
        text: &str,
    ) -> Result<(), AllocError> {
        let area = Area {
            x: at.x,
            y: at.y,
            width: style::KEY_SAMPLE,
            height,
        };
        self.page.area(class, area, text)?;
        self.key_text(at, text)
    }

    fn key_line(&mut self, at: Point, class: &str, text: &str) -> Result<(), AllocError> {
        let y = at.y.saturating_add(style::ITEM_BAR / 2);
        let from = Point { x: at.x, y };
        let to = Point {
            x: at.x.saturating_add(style::KEY_SAMPLE),
            y,
        };
        self.page.line(class, from, to, text)?;
        self.key_text(at, text)
    }

    fn key_arrow(&mut self, at: Point, text: &str) -> Result<(), AllocError> {
        let y = at.y.saturating_add(style::ITEM_BAR / 2);
        let from = Point { x: at.x, y };
        let to = Point {
            x: at.x.saturating_add(style::KEY_SAMPLE),
            y,
        };
        self.page.line("adopt", from, to, text)?;
        self.page.shape("head", to, "l-6 -3v6", text)?;
        self.key_text(at, text)
    }

    fn key_mark(&mut self, at: Point, fate: Fate, text: &str) -> Result<(), AllocError> {
        let middle = Point {
            x: at.x.saturating_add(style::KEY_SAMPLE / 2),
            y: at.y,
        };
        self.fate(fate, middle, text)?;
        self.key_text(at, text)
    }

    fn key_text(&mut self, at: Point, text: &str) -> Result<(), AllocError> {
        let beside = Point {
            x: at
                .x
                .saturating_add(style::KEY_SAMPLE)
                .saturating_add(2 * style::PAD),
            y: at.y.saturating_add(style::ITEM_BAR),
        };
        self.page.text("", beside, text)
    }
}

/// Where an entry of the key lies, of which each line has five at most.
fn entry(place: u64, top: u64) -> Point {
    Point {
        x: style::KEY_ENTRY
            .saturating_mul(place)
            .saturating_add(style::LEFT),
        y: top,
    }
}
