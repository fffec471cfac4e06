//! The limits and defaults of lines.
ghost use Rattle.wire_json.specs.Limits.{AreLimits};

use sg_base::Weight;

/// The most bytes of a line, without its line feed.
pub const MOST_LINE_BYTES: usize = 65_536;

/// The most digits of a weight that is given as a text.
pub const MOST_WEIGHT_DIGITS: usize = 20;

/// The most bytes of a view's name, which has one at least.
pub const MOST_VIEW_NAME_BYTES: usize = 255;

/// The weight of a suggestion that gives none.
pub const DEFAULT_WEIGHT: Weight = 1;

/// The rows of a query that gives no number.
pub const DEFAULT_K: u32 = 5;

/// Each limit and default is the number that is documented.
pub fn limits_are_exact()
    ensures { AreLimits }
{}
