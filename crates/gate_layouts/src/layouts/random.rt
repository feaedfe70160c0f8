//! Random shelves: the same ones for the same seed.
//!
//! A shelf has 1 to 5 submissions, each of a library with 1 to 4 structures, in the notation of `gate_samples`. A structure refers to later ones of
//! its library and to cells on the shelf. Cells and structures share their names, so that a library may hide a cell. A cell may be submitted again.

use anyhow::Result;
use gate_plain::{Entry, Notation, put_entry};
use gate_samples::text_of_library;
use gate_words::ORIENTS;
use mpw_geom::{Name, Orient, Placing, Point};
use mpw_hier::Shelf;
use mpw_walk::Root;
use std::alloc::{AllocError, Global};

/// The names of cells and of structures.
const NAMES: [&str; 8] = ["A", "B", "C", "D", "E", "F", "G", "H"];

/// The most flat shapes of a root.
const MAX_SHAPES: u64 = 2000;

/// The random numbers, and the layer of the last shape.
#[derive(Drop)]
pub struct Random {
    numbers: gate_words::Random,
    layer: i64,
}

/// A library that is being made: its first structure has the name of that number, and the others the next ones.
#[derive(Clone, Copy)]
struct Plan {
    first: u32,
    count: u32,
}

impl Plan {
    fn name(self, place: u32) -> &'static str {
        name_of(self.first.wrapping_add(place))
    }

    /// Whether one of the structures has the name, up to that one.
    fn has(self, name: &str, last: u32) -> bool {
        for place in 0..last.saturating_add(1) {
            if self.name(place) == name {
                return true;
            }
        }
        false
    }
}

fn name_of(number: u32) -> &'static str {
    NAMES[(number % 8) as usize]
}

impl Random {
    /// The shelves of a seed.
    pub fn new(seed: u64) -> Random {
        Random {
            numbers: gate_words::Random::new(seed),
            layer: 0,
        }
    }

    /// A number below `bound`, or 0.
    fn below(&mut self, bound: u32) -> u32 {
        self.numbers.below(bound)
    }

    /// Flags, half of them set.
    pub fn flags(&mut self, alloc: Global, count: usize) -> Result<Vec<bool>, AllocError> {
        let mut flags = Vec::new(alloc);
        for _ in 0..count {
            flags.push(self.below(2) == 1)?;
        }
        Ok(flags)
    }

    /// -500 to 500 nm.
    fn coordinate(&mut self) -> i64 {
        i64::from(self.below(1001)) - 500
    }

    /// 2 to 60 nm, even.
    fn length(&mut self) -> i64 {
        i64::from(self.below(30)).wrapping_mul(2).wrapping_add(2)
    }

    fn orient(&mut self) -> (&'static str, Orient) {
        ORIENTS[(self.below(8) % 8) as usize]
    }

    /// Adds a layer that no other shape of the shelf has.
    fn add_layer(&mut self, text: &mut Notation) {
        self.layer = self.layer.wrapping_add(1);
        text.numbers(&[self.layer]);
    }

    /// Adds an orientation.
    fn add_turn(&mut self, text: &mut Notation) {
        let (turn, _) = self.orient();
        text.add(" ");
        text.add(turn);
    }

    /// Adds a rectangle.
    fn add_boundary(&mut self, text: &mut Notation) {
        let (x, y) = (self.coordinate(), self.coordinate());
        let right = x.wrapping_add(self.length());
        let high = y.wrapping_add(self.length());
        text.add("; b");
        self.add_layer(text);
        text.add("/0");
        text.numbers(&[x, y, right, high]);
    }

    /// Adds a wire with one corner.
    fn add_path(&mut self, text: &mut Notation) {
        let (x, y) = (self.coordinate(), self.coordinate());
        let right = x.wrapping_add(self.length());
        let low = y.wrapping_sub(self.length());
        text.add("; w");
        self.add_layer(text);
        text.add("/1 .");
        text.numbers(&[self.length()]);
        text.add(" . .");
        text.numbers(&[x, y, right, y, right, low]);
    }

    /// Adds an instance.
    fn add_single(&mut self, text: &mut Notation, name: &str) {
        text.add("; s ");
        text.add(name);
        text.numbers(&[self.coordinate(), self.coordinate()]);
        self.add_turn(text);
    }

    /// That many steps of any size from a coordinate.
    fn behind(&mut self, from: i64, count: i64) -> i64 {
        from.wrapping_add(self.coordinate().wrapping_mul(count))
    }

    /// Adds an array of 1 to 3 columns and 1 to 3 rows.
    fn add_array(&mut self, text: &mut Notation, name: &str) {
        let columns = i64::from(self.below(3)).wrapping_add(1);
        let rows = i64::from(self.below(3)).wrapping_add(1);
        let (x, y) = (self.coordinate(), self.coordinate());
        text.add("; a ");
        text.add(name);
        text.numbers(&[columns, rows, x, y]);
        text.numbers(&[self.behind(x, columns), self.behind(y, columns)]);
        text.numbers(&[self.behind(x, rows), self.behind(y, rows)]);
        self.add_turn(text);
    }

    /// A name that the structure at an index may refer to, or an empty one if there is none.
    fn target(
        &mut self,
        alloc: Global,
        shelf: &Shelf,
        plan: Plan,
        place: u32,
    ) -> Result<&'static str> {
        let later = plan.count.saturating_sub(place).saturating_sub(1);
        if later > 0 && self.below(2) == 0 {
            let further = self.below(later);
            return Ok(plan.name(place.wrapping_add(1).wrapping_add(further)));
        }
        let name = name_of(self.below(8));
        let is_later = plan.has(name, plan.count.saturating_sub(1)) && !plan.has(name, place);
        let is_cell = shelf
            .present(&Name::read(alloc, name.as_bytes())?)
            .is_some();
        let is_own = plan.has(name, place);
        Ok(if is_later || is_cell && !is_own {
            name
        } else {
            ""
        })
    }

    /// Adds an element of the structure at an index, or nothing.
    fn add_element(
        &mut self,
        text: &mut Notation,
        shelf: &Shelf,
        plan: Plan,
        place: u32,
    ) -> Result<()> {
        match self.below(6) {
            0 => self.add_boundary(text),
            1 => self.add_path(text),
            choice => {
                let name = self.target(text.alloc(), shelf, plan, place)?;
                if !name.is_empty() && choice < 4 {
                    self.add_single(text, name);
                } else if !name.is_empty() {
                    self.add_array(text, name);
                }
            }
        }
        Ok(())
    }

    /// Adds a structure.
    fn add_structure(
        &mut self,
        text: &mut Notation,
        shelf: &Shelf,
        plan: Plan,
        place: u32,
    ) -> Result<()> {
        text.add("; ");
        text.add(plan.name(place));
        text.add(":");
        for _ in 0..=self.below(6) {
            self.add_element(text, shelf, plan, place)?;
        }
        Ok(())
    }

    /// The bytes of a library.
    fn library(&mut self, alloc: Global, shelf: &Shelf, plan: Plan) -> Result<Vec<u8>> {
        let mut text = Notation::new(alloc);
        for place in 0..plan.count {
            self.add_structure(&mut text, shelf, plan, place)?;
        }
        Ok(text_of_library(alloc, text.finish()?.as_str())?)
    }

    /// Submits a library as one of four cells: the first structure of its library, or any.
    fn submit(&mut self, alloc: Global, shelf: &mut Shelf) -> Result<()> {
        let plan = Plan {
            first: self.below(8),
            count: self.below(4).wrapping_add(1),
        };
        let bytes = self.library(alloc, shelf, plan)?;
        let place = if self.below(3) == 0 {
            self.below(plan.count)
        } else {
            0
        };
        let cell = name_of(self.below(4));
        let entry = Entry {
            cell,
            top: plan.name(place),
            user: cell,
        };
        put_entry(alloc, shelf, entry, &bytes, mpw_hier::MAX_SHAPES)??;
        Ok(())
    }

    /// A shelf of 1 to 5 submissions.
    pub fn shelf(&mut self, alloc: Global) -> Result<Shelf> {
        let mut shelf = Shelf::new(alloc);
        for _ in 0..=self.below(5) {
            self.submit(alloc, &mut shelf)?;
        }
        Ok(shelf)
    }

    fn root(&mut self) -> Root {
        let (_, orient) = self.orient();
        Root {
            submission: self.below(5),
            placing: Placing {
                orient,
                by: Point {
                    x: self.coordinate().wrapping_mul(1000),
                    y: self.coordinate().wrapping_mul(1000),
                },
            },
        }
    }

    /// Up to 8 roots of the shelf, without those that have too many shapes.
    pub fn roots(&mut self, alloc: Global, shelf: &Shelf) -> Result<Vec<Root>, AllocError> {
        let mut roots = Vec::new(alloc);
        for _ in 0..self.below(9) {
            let root = self.root();
            let is_small = shelf.count(root.submission) <= MAX_SHAPES;
            if root.fits(shelf) && is_small {
                roots.push(root)?;
            }
        }
        Ok(roots)
    }
}
