//! Laws of the definitions.

ghost use Rattle.std.specs.Prelude.{◌≡◌, ◌+◌, ◌*◌, ◌<◌, ◌≤◌, ◌||◌, ℕ, Bool, false, pos};
ghost use Rattle.raster_core.specs.Pixels.{Scale, pixels};
ghost use Rattle.raster_core.specs.PixelGrids.{PixelGrid, grid_of, is_black, painted_grid};

/// A drawn grid has its size. A pixel inside it is black exactly where it should be, and none outside is.
pub fn drawn_pixels()
    ensures width { (w h : ℕ) (black : ℕ → ℕ → Bool) → (grid_of w h black).width ≡ w }
    ensures height { (w h : ℕ) (black : ℕ → ℕ → Bool) → (grid_of w h black).height ≡ h }
    ensures inside { (w h : ℕ) (black : ℕ → ℕ → Bool) (x y : ℕ) → x < w → y < h → is_black (grid_of w h black) x y ≡ black x y }
    ensures right { (w h : ℕ) (black : ℕ → ℕ → Bool) (x y : ℕ) → w ≤ x → is_black (grid_of w h black) x y ≡ false }
    ensures below { (w h : ℕ) (black : ℕ → ℕ → Bool) (x y : ℕ) → h ≤ y → is_black (grid_of w h black) x y ≡ false }
{}

/// The length of a rule in pixels is the least number of pixels that is not shorter.
pub fn lengths_in_pixels()
    ensures long { (s : Scale) (n : ℕ) → 0 < s.den → n * s.num ≤ s.den * pixels s (pos n) }
    ensures least { (s : Scale) (n : ℕ) → 0 < s.den → s.den * pixels s (pos n) < n * s.num + s.den }
{}
