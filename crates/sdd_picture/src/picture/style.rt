//! Sizes, in pixels, and colours of a picture.

ghost use Rattle.std.specs.Prelude.{◌<◌};

/// The room left of the first line.
pub const LEFT: u64 = 72;
/// The room right of the last line.
pub const RIGHT: u64 = 24;
/// A picture is at least so wide, so that its key fits.
pub const LEAST_WIDTH: u64 = 880;

/// The baselines of the numbers of lines and of the epochs, and where their vertical lines begin.
pub const LINES_BASE: u64 = 20;

pub const EPOCHS_BASE: u64 = 40;

pub const GUIDES_TOP: u64 = 26;

/// Where the first participant's row begins.
pub const ROWS_TOP: u64 = 54;
/// From one lane of guards to the next, and the height of a guard in it.
pub const LANE: u64 = 17;

pub const BAR: u64 = 13;
/// Between two participants.
pub const ROW_GAP: u64 = 14;

/// Above the first item.
pub const ITEMS_GAP: u64 = 10;
/// From one item to the next, and the height of its bar.
pub const ITEM: u64 = 17;

pub const ITEM_BAR: u64 = 9;

/// The key below: above it, from one of its lines to the next, and from one entry to the next.
pub const KEY_GAP: u64 = 16;

pub const KEY_LINE: u64 = 20;

pub const KEY_ENTRY: u64 = 160;

pub const KEY_SAMPLE: u64 = 26;

/// A letter is at most so wide.
pub const LETTER: u64 = 7;
/// Beside a text.
pub const PAD: u64 = 4;
/// The half of a mark.
pub const MARK: u64 = 4;

/// The classes of the elements. `a0` to `a7` are the participants' colours.
pub const STYLE: &str = "<style>
text{font:10px monospace;fill:#222;paint-order:stroke;stroke:#fff;stroke-width:3px;stroke-linejoin:round}
.end{text-anchor:end}
.middle{text-anchor:middle}
.small{fill:#666}
.in{fill:#fff;stroke:none}
.page{fill:#fff}
.column{fill:#fff;fill-opacity:0}
.guide{stroke:#eee}
.raise{stroke:#888;stroke-dasharray:5 3}
.life{stroke:#bbb;stroke-width:2}
.left{stroke:#444;stroke-dasharray:2 3}
.adopt{stroke:#222;stroke-width:1.5;fill:none}
.head{fill:#222}
.use{fill:#fff;stroke:#999}
.wait{fill-opacity:.75}
.read{fill-opacity:.35}
.mark{fill:#222;stroke:#fff}
.place{fill:#fff;stroke:#222;stroke-width:1.5}
.a0{fill:#3b6ea5}
.a1{fill:#b5591b}
.a2{fill:#3a8747}
.a3{fill:#8355a0}
.a4{fill:#b83a3a}
.a5{fill:#1f8585}
.a6{fill:#7a5c48}
.a7{fill:#5a6572}
</style>
";

/// The width of a line's column: the more lines, the narrower. It is even.
pub fn column_width(lines: u64) -> u64 {
    match lines {
        0..=24 => 40,
        25..=50 => 28,
        51..=110 => 18,
        111..=250 => 12,
        _ => 8,
    }
}

/// From one numbered line to the next.
pub fn tick(lines: u64) -> u64
    ensures { 0 < result }
{
    match lines {
        0..=50 => 1,
        51..=250 => 5,
        _ => 10,
    }
}

/// The class of a participant's colour. After the last one the first comes again.
pub fn colour(participant: usize) -> &'static str {
    match participant % 8 {
        0 => "a0",
        1 => "a1",
        2 => "a2",
        3 => "a3",
        4 => "a4",
        5 => "a5",
        6 => "a6",
        _ => "a7",
    }
}
