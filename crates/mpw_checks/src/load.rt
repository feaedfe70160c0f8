//! Estimates whether halving a core pays, and where. The estimates decide the cost, never the result.

use mpw_geom::Box2;

/// A core with at most this many rectangles is one strip.
const FEW: u64 = 16;

/// With more rectangles than this, some rows may be crowded.
const MANY: u64 = 512;

/// The cost of a rectangle in addition to its bands.
const ITSELF: u64 = 12;

/// How many rectangles there are, the sum of their heights, and the box around all of them.
#[derive(Clone, Copy)]
pub(crate) struct Load {
    count: u64,
    heights: u64,
    pub(crate) extent: Box2,
}

/// How many of the rectangles in the whole width a part of that width has.
fn share(count: u64, part: u64, whole: u64) -> u64 {
    count
        .saturating_mul(part)
        .checked_div(whole)
        .unwrap_or(count)
}

impl Load {
    /// The load of the rectangles. One pass.
    pub(crate) fn of(boxes: &[Box2]) -> Load {
        let mut heights = 0u64;
        let mut extent = Box2 {
            x0: i64::MAX,
            y0: i64::MAX,
            x1: i64::MIN,
            y1: i64::MIN,
        };
        for b in boxes {
            heights = heights.saturating_add(b.y0.abs_diff(b.y1));
            extent = extent.join(*b);
        }
        Load {
            count: boxes.len() as u64,
            heights,
            extent,
        }
    }

    /// The load of both together.
    pub(crate) fn with(&self, other: &Load) -> Load {
        Load {
            count: self.count.saturating_add(other.count),
            heights: self.heights.saturating_add(other.heights),
            extent: self.extent.join(other.extent),
        }
    }

    /// How many rectangles a row has on average.
    fn in_a_row(&self) -> u64 {
        let height = self.extent.y0.abs_diff(self.extent.y1);
        self.heights.checked_div(height).unwrap_or(0)
    }

    /// An estimate of how many boxes the bands have: two borders for each rectangle, each with as many rectangles as a row has.
    fn work(&self) -> u64 {
        self.count
            .saturating_mul(self.in_a_row().saturating_add(ITSELF))
    }

    /// Whether it may pay to halve a core. There must be more than a few rectangles, and either many of them, or such that the halves are less work
    /// by more than one part in eight. This estimate takes the rectangles as narrow and evenly spread, and the windows of the halves as overlapping
    /// by a margin on each side of the cut. It saves the passes that would make halves in vain.
    pub(crate) fn may_be_eased(&self, core: &Box2, distance: u32) -> bool {
        if self.count <= FEW || self.count > MANY {
            return self.count > FEW;
        }
        let margins = u64::from(distance).saturating_add(1).saturating_mul(2);
        let width = core.x0.abs_diff(core.x1);
        let whole = width.saturating_add(margins);
        let half = (width / 2).saturating_add(margins);
        let in_a_row = share(self.in_a_row(), half, whole).saturating_add(ITSELF);
        let halves = share(self.count, half, whole)
            .saturating_mul(in_a_row)
            .saturating_mul(2);
        let work = self.work();
        halves < work.saturating_sub(work / 8)
    }

    /// Whether two halves are less work by more than one part in sixteen.
    pub(crate) fn is_eased_by(&self, low: &Load, high: &Load) -> bool {
        let work = self.work();
        low.work().saturating_add(high.work()) < work.saturating_sub(work / 16)
    }
}
