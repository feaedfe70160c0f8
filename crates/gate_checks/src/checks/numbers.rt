//! Random layouts, the same in each run.

ghost use Rattle.std.specs.Prelude.{◌<◌};

use crate::checks::drawn::Drawn;
use mpw_geom::Box2;
use std::alloc::{AllocError, Global};

/// The number of columns and rows of a layout.
pub const SIZE: i64 = 64;

/// Numbers that look random, the same in each run.
#[derive(Drop)]
pub struct Numbers {
    /// The state of a linear congruential generator; the first one is the seed.
    pub state: u64,
}

/// The kinds of random layouts.
#[derive(Clone, Copy, PartialEq, Eq)]
pub enum Kind {
    /// Nine boxes a layer, narrower than 32.
    Few,
    /// 60 boxes a layer, narrower than 8.
    Crowded,
    /// 40 boxes a layer, narrower than 32, with borders at multiples of eight.
    Aligned,
    /// 120 boxes a layer over a place of 3,000 by 300.
    Wide,
}

/// The box with each coordinate rounded down to a multiple of eight.
fn snapped(b: Box2) -> Box2 {
    Box2 {
        x0: b.x0 & !7,
        y0: b.y0 & !7,
        x1: b.x1 & !7,
        y1: b.y1 & !7,
    }
}

impl Kind {
    /// Its name in what is printed.
    pub fn name(self) -> &'static str {
        match self {
            Kind::Few => "random",
            Kind::Crowded => "crowded",
            Kind::Aligned => "aligned",
            Kind::Wide => "wide",
        }
    }

    fn count(self) -> u32 {
        match self {
            Kind::Few => 9,
            Kind::Crowded => 60,
            Kind::Aligned => 40,
            Kind::Wide => 120,
        }
    }

    fn shape(self, numbers: &mut Numbers) -> Box2 {
        match self {
            Kind::Few => numbers.place(32),
            Kind::Crowded => numbers.place(8),
            Kind::Aligned => snapped(numbers.place(32)),
            Kind::Wide => numbers.wide(),
        }
    }

    /// A core for a layout.
    pub fn core(self, numbers: &mut Numbers) -> Box2 {
        match self {
            Kind::Wide => Box2 {
                x0: -10,
                y0: 5,
                x1: 2990,
                y1: 5000,
            },
            _ => numbers.place(64),
        }
    }

    fn boxes(self, alloc: Global, numbers: &mut Numbers) -> Result<Vec<Box2>, AllocError> {
        let mut boxes = Vec::new(alloc);
        for _ in 0..self.count() {
            boxes.push(self.shape(numbers))?;
        }
        Ok(boxes)
    }

    /// A random layout.
    pub fn drawn(self, alloc: Global, numbers: &mut Numbers) -> Result<Drawn, AllocError> {
        let first = self.boxes(alloc, numbers)?;
        let second = self.boxes(alloc, numbers)?;
        Ok(Drawn { first, second })
    }
}

impl Numbers {
    /// The next number, from 0 to before `n`.
    fn below(&mut self, n: u32) -> i64
        requires { 0 < n }
    {
        self.state = self
            .state
            .wrapping_mul(6_364_136_223_846_793_005)
            .wrapping_add(1_442_695_040_888_963_407);
        let drawn = (self.state >> 33) % u64::from(n);
        i64::try_from(drawn).unwrap_or(0)
    }

    /// A distance of 1 to 12 nm.
    pub fn distance(&mut self) -> u32 {
        u32::try_from(self.below(12)).unwrap_or(0).saturating_add(1)
    }

    /// A box within the layout's columns and rows, narrower than `n`. It may have no area.
    fn place(&mut self, n: u32) -> Box2
        requires { 0 < n }
    {
        let x0 = self.below(64);
        let y0 = self.below(64);
        let x1 = x0.saturating_add(self.below(n)).min(SIZE);
        let y1 = y0.saturating_add(self.below(n)).min(SIZE);
        Box2 { x0, y0, x1, y1 }
    }

    /// A box over a place of 3,000 by 300, one in four of them long.
    fn wide(&mut self) -> Box2 {
        let x0 = self.below(3000);
        let y0 = self.below(300);
        let is_long = self.below(4) == 0;
        let wide = if is_long {
            self.below(900)
        } else {
            self.below(40)
        };
        let high = self.below(40);
        Box2 {
            x0,
            y0,
            x1: x0.saturating_add(wide),
            y1: y0.saturating_add(high),
        }
    }
}
