//! Estimates whether halving a column pays, and where. The estimates decide the cost, never the result.

use mpw_geom::{Box2, Layer};
use mpw_tiles::Rectangle;

/// A column with at most this many rectangles is a leaf.
const FEW: u64 = 16;

/// With more rectangles than this, some rows may be crowded.
const MANY: u64 = 512;

/// The cost of a rectangle in addition to its bands.
const ITSELF: u64 = 12;

/// A box without any position.
const NOWHERE: Box2 = Box2 {
    x0: i64::MAX,
    y0: i64::MAX,
    x1: i64::MIN,
    y1: i64::MIN,
};

/// How many rectangles a layer has, the sum of their heights, and the box around all of them.
#[derive(Clone, Copy)]
struct Group {
    layer: Layer,
    count: u64,
    heights: u64,
    extent: Box2,
}

impl Group {
    /// No rectangle of the layer.
    fn none(layer: Layer) -> Group {
        Group {
            layer,
            count: 0,
            heights: 0,
            extent: NOWHERE,
        }
    }

    /// The group with one more rectangle.
    fn with(&self, area: &Box2) -> Group {
        Group {
            layer: self.layer,
            count: self.count.saturating_add(1),
            heights: self.heights.saturating_add(area.y0.abs_diff(area.y1)),
            extent: self.extent.join(*area),
        }
    }

    /// An estimate of how many boxes its bands have: two borders for each rectangle, each with as many rectangles as a row has.
    fn work(&self) -> u64 {
        let height = self.extent.y0.abs_diff(self.extent.y1);
        let in_a_row = self.heights.checked_div(height).unwrap_or(0);
        self.count.saturating_mul(in_a_row.saturating_add(ITSELF))
    }
}

/// How many rectangles there are, how much work the bands of their layers are, and the box around all of them.
#[derive(Clone, Copy)]
pub(crate) struct Load {
    count: u64,
    work: u64,
    pub(crate) extent: Box2,
}

/// How many of the rectangles in the whole width a part of that width has.
fn share(count: u64, part: u64, whole: u64) -> u64 {
    count
        .saturating_mul(part)
        .checked_div(whole)
        .unwrap_or(count)
}

impl Load {
    /// The load with one more layer.
    fn with(&self, group: &Group) -> Load {
        Load {
            count: self.count.saturating_add(group.count),
            work: self.work.saturating_add(group.work()),
            extent: self.extent.join(group.extent),
        }
    }

    /// The load of rectangles that are sorted by layer. One pass.
    pub(crate) fn of(rectangles: &[Rectangle]) -> Load {
        let mut load = Load {
            count: 0,
            work: 0,
            extent: NOWHERE,
        };
        let mut group = Group::none(Layer {
            layer: 0,
            datatype: 0,
        });
        for rectangle in rectangles {
            if group.layer != rectangle.layer {
                load = load.with(&group);
                group = Group::none(rectangle.layer);
            }
            group = group.with(&rectangle.area);
        }
        load.with(&group)
    }

    /// Whether it may pay to halve a column. There must be more than a few rectangles, and either many of them, or such that the halves are less work by more
    /// than one part in eight. This estimate takes the rectangles as narrow and evenly spread, and the windows of the halves as overlapping by a margin on
    /// each side of the cut. It saves the passes that would make halves in vain.
    pub(crate) fn may_be_eased(&self, core: &Box2, distance: u32) -> bool {
        if self.count <= FEW || self.count > MANY {
            return self.count > FEW;
        }
        let margins = u64::from(distance).saturating_add(1).saturating_mul(2);
        let width = core.x0.abs_diff(core.x1);
        let whole = width.saturating_add(margins);
        let half = (width / 2).saturating_add(margins);
        let crowd = self.work.checked_div(self.count).unwrap_or(0);
        let in_a_row = share(crowd.saturating_sub(ITSELF), half, whole).saturating_add(ITSELF);
        let halves = share(self.count, half, whole)
            .saturating_mul(in_a_row)
            .saturating_mul(2);
        halves < self.work.saturating_sub(self.work / 8)
    }

    /// Whether two halves are less work by more than one part in sixteen.
    pub(crate) fn is_eased_by(&self, low: &Load, high: &Load) -> bool {
        low.work.saturating_add(high.work) < self.work.saturating_sub(self.work / 16)
    }
}
