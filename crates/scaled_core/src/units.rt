//! The units of dimension texts.

ghost use Rattle.std.specs.Prelude.{◌≡◌, ◌^◌, ◌<◌, ◌≤◌};
ghost use Rattle.scaled_core.specs.ParsedTexts.{unit_named};
ghost use Rattle.scaled_core.specs.Units.{of_points, scaled_points};

/// A unit of length (TeX: The Program, part 26, §453 and §458, scan_dimen).
#[derive(Clone, Copy, Debug, PartialEq, Eq)]
pub enum LengthUnit {
    /// `pt`: a printer's point.
    Point,
    /// `in`: 72.27 points.
    Inch,
    /// `pc`: 12 points.
    Pica,
    /// `cm`: 254 cm are 100 inches.
    Centimeter,
    /// `mm`: a tenth of a centimeter.
    Millimeter,
    /// `bp`: 72 bp are an inch.
    BigPoint,
    /// `dd`: 1157 dd are 1238 points.
    DidotPoint,
    /// `cc`: 12 didot points.
    Cicero,
    /// `sp`: 65536 sp are a point.
    ScaledPoint,
}

impl LengthUnit {
    /// The unit with this name, or `None`.
    #[tactic(auto, unfolding(crate::specs::ParsedTexts::unit_named))]
    pub fn from_name(name: &[u8]) -> Option<LengthUnit>
        ensures { result ≡ unit_named name.now }
    {
        match name {
            b"pt" => Some(LengthUnit::Point),
            b"in" => Some(LengthUnit::Inch),
            b"pc" => Some(LengthUnit::Pica),
            b"cm" => Some(LengthUnit::Centimeter),
            b"mm" => Some(LengthUnit::Millimeter),
            b"bp" => Some(LengthUnit::BigPoint),
            b"dd" => Some(LengthUnit::DidotPoint),
            b"cc" => Some(LengthUnit::Cicero),
            b"sp" => Some(LengthUnit::ScaledPoint),
            _ => None,
        }
    }

    /// `whole` units and `fraction` 65536ths of a unit, in scaled points, rounded down.
    pub fn size(self, whole: u64, fraction: u64) -> u64
        requires whole { whole ≤ 2 ^ 30 }
        requires fraction { fraction ≤ 65536 }
        ensures size { result ≡ scaled_points self whole fraction }
        ensures value_bounded { result < 2 ^ 62 }
    {
        match self {
            LengthUnit::Point => of_points(whole, fraction, 1, 1),
            LengthUnit::Inch => of_points(whole, fraction, 7227, 100),
            LengthUnit::Pica => of_points(whole, fraction, 12, 1),
            LengthUnit::Centimeter => of_points(whole, fraction, 7227, 254),
            LengthUnit::Millimeter => of_points(whole, fraction, 7227, 2540),
            LengthUnit::BigPoint => of_points(whole, fraction, 7227, 7200),
            LengthUnit::DidotPoint => of_points(whole, fraction, 1238, 1157),
            LengthUnit::Cicero => of_points(whole, fraction, 14856, 1157),
            LengthUnit::ScaledPoint => whole,
        }
    }
}

/// The size of `whole + fraction / 65536` units of `num / den` points each, in scaled points, rounded down.
#[tactic(auto, unfolding(crate::specs::Units::of_points))]
fn of_points(whole: u64, fraction: u64, num: u64, den: u64) -> u64
    requires whole { whole ≤ 2 ^ 30 }
    requires fraction { fraction ≤ 65536 }
    requires num { num < 2 ^ 14 }
    requires den { 0 < den }
    ensures size { result ≡ of_points whole fraction num den }
    ensures value_bounded { result < 2 ^ 62 }
{
    (65536 * whole + fraction) * num / den
}
