//! A row of numbers for an item.

ghost use Rattle.std.specs.Prelude.{◌≡◌};
ghost use Rattle.box_items.specs.Rows.{kind_number};

use crate::place::WideDimen;

/// A box or an item of a box. What its kind does not have is 0.
#[repr(C)]
#[derive(Clone, Copy, Debug, PartialEq, Eq)]
pub struct BoxItem {
    /// How many boxes contain it.
    pub level: u32,
    /// The number of its kind.
    pub kind: u32,
    /// Its place to the right of the reference point of the outermost box: that of its left edge, or of the reference point of a box.
    pub right: WideDimen,
    /// Its place below that reference point: that of its baseline in a horizontal list, of its top in a vertical one, of the reference point of a
    /// box, or of the bottom of a rule.
    pub down: WideDimen,
    /// Of glue, the distance to the next item.
    pub set_width: WideDimen,
    /// The width of a glyph, a rule or a box, the amount of a kern, or the natural width of glue. A running size of a rule is that of its box.
    pub width: i32,
    pub height: i32,
    pub depth: i32,
    /// Of a box in a list, how far it is moved, down in a horizontal list and to the right in a vertical one.
    pub shift: i32,
    pub stretch: i32,
    /// 0 to 3: normal, fil, fill, filll.
    pub stretch_order: u32,
    pub shrink: i32,
    pub shrink_order: u32,
    /// The sign of the setting of a box: 0 if its glue has its natural width, 1 if it stretches, 2 if it shrinks.
    pub setting: u32,
    /// The order of the glue that stretches or shrinks.
    pub setting_order: u32,
    /// The exact ratio of the setting.
    pub ratio_num: i64,
    pub ratio_den: i64,
    /// The slot of the font of a glyph.
    pub slot: u32,
    /// The character of a glyph.
    pub code: u32,
    pub penalty: i32,
    /// Which sizes of a rule run: the sum of 1 for the width, 2 for the height and 4 for the depth.
    pub running: u32,
    /// Where the text of a special begins among the texts.
    pub text_start: u64,
    /// How many bytes it has.
    pub text_size: u64,
}

/// What a row shows.
#[derive(Clone, Copy, Debug, PartialEq, Eq)]
pub enum ItemKind {
    Glyph,
    FontKern,
    Kern,
    Glue,
    Penalty,
    Rule,
    Special,
    Hbox,
    Vbox,
}

impl ItemKind {
    /// The number of a kind in a row.
    #[inline(always)]
    pub fn number(self) -> u32
        ensures { result ≡ kind_number self }
    {
        match self {
            ItemKind::Glyph => 1,
            ItemKind::FontKern => 2,
            ItemKind::Kern => 3,
            ItemKind::Glue => 4,
            ItemKind::Penalty => 5,
            ItemKind::Rule => 6,
            ItemKind::Special => 7,
            ItemKind::Hbox => 8,
            ItemKind::Vbox => 9,
        }
    }
}
