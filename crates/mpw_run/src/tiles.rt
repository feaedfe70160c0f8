//! The tiles of a run: how often each was handed out, and its answer.

ghost use Rattle.std.specs.Prelude.{◌≡◌, ◌<◌, ◌^◌, ◌++◌, length, IfOk, OnOk, slice_get, Option, Some, option_map};
ghost use Rattle.std.specs.Option.{option_to_list};
ghost use Rattle.mpw_run.specs.Run.{Tile as TileValue, answered, answers_of};
ghost use Rattle.mpw_run.specs.Step.{Offer, new_tiles, next_from, offered, raised, answered_by, handed_out};
ghost use Rattle.mpw_run.specs.Prepared.{MayCount, set_tile};
ghost use Rattle.mpw_run.specs.Internal.Prepared.{answers_with};
ghost use Rattle.mpw_run.specs.Stitching.{stitched, AreFilled};

use crate::laws::stitched_computes;
use mpw_markers::{Book, TileMarkers, lists_determine_the_book, stitch};
use std::alloc::{AllocError, Global};
use std::marker::Model;

/// A tile of a run: how often it was handed out, and its markers.
pub(crate) struct Tile {
    /// How often it was handed out.
    pub taken: u64,
    /// The markers of its answer, or none before it is answered.
    pub answer: Option<TileMarkers>,
}

impl Drop for Tile {
    fn drop(self) {
        let Tile { taken: _, answer } = self;
        drop(answer);
    }
}

impl Model for Tile {
    ghost use Rattle.mpw_run.specs.Run.{Tile};

    ghost Value = { Tile };

    ghost view = { λ t. record { taken = t.taken; answer = t.answer } };
}

impl Tile {
    /// Counts that the tile was handed out.
    fn raise(&mut self)
        requires { MayCount self.old }
        ensures { self.new ≡ raised self.old }
    {
        self.taken += 1;
    }

    /// The number of lists stored for it: 1 if it is answered.
    fn count(&self) -> usize
        ensures { result ≡ length (option_to_list self.now.answer) }
    {
        match self.answer {
            Some(_) => 1,
            None => 0,
        }
    }

    /// Stores the markers.
    fn keep(&mut self, markers: TileMarkers)
        ensures { self.new ≡ answered_by markers self.old }
    {
        self.answer = Some(markers);
    }
}

/// The tiles of a run. Contracts see them as a list.
pub(crate) struct Tiles {
    items: Vec<Tile>,
}

impl Drop for Tiles {
    fn drop(self) {
        let Tiles { items } = self;
        drop(items);
    }
}

impl Model for Tiles {
    ghost use Rattle.std.specs.Prelude.{List};
    ghost use Rattle.mpw_run.specs.Run.{Tile};

    ghost Value = { List Tile };

    ghost view = { λ t. t.items.items };
}

impl Tiles {
    /// The tiles.
    pub(crate) fn as_slice(&self) -> &[Tile]
        ensures { result.now ≡ self.now }
    {
        self.items.as_slice()
    }

    /// The number of answered tiles. Linear in the tiles.
    pub(crate) fn done(&self) -> usize
        ensures { result ≡ answered self.now }
    {
        answer_count(self.items.as_slice())
    }

    /// Tiles that weren't handed out and aren't answered.
    pub(crate) fn new(alloc: Global, count: u32) -> Result<Tiles, AllocError>
        ensures { IfOk result (λ t. t ≡ new_tiles count) }
    {
        let mut items = Vec::new(alloc);
        for _ in 0..count {
            items.push(Tile {
                taken: 0,
                answer: None,
            })?;
        }
        Ok(Tiles { items })
    }

    /// The unanswered tile that was handed out the fewest times, and of these the one with the least number.
    pub(crate) fn next(&self) -> Option<u32>
        requires { length self.now < 2 ^ 32 }
        ensures { result ≡ option_map (λ (o : Offer). o.number) (next_from 0 self.now) }
    {
        let items = self.items.as_slice();
        let mut best: Option<(u32, u64)> = None;
        let mut rest = items.len();
        while rest > 0 {
            rest -= 1;
            best = first_of(rest as u32, &items[rest], best);
        }
        match best {
            Some((tile, _)) => Some(tile),
            None => None,
        }
    }

    /// The book of all tiles, with these markers for one of them.
    pub(crate) fn book_with(
        &self,
        alloc: Global,
        tile: u32,
        markers: &TileMarkers,
    ) -> Result<Book, AllocError>
        requires tile { tile < length self.now }
        requires filled { AreFilled (answers_with markers.now tile self.now) }
        ensures { IfOk result (λ book. book ≡ stitched (answers_with markers.now tile self.now)) }
    {
        lists_determine_the_book();
        stitched_computes();
        let lists = self.lists_with(alloc, tile, markers)?;
        let book = stitch(alloc, lists.as_slice())?;
        Ok(book)
    }

    /// The markers of the answered tiles, in order, with these for one of them.
    fn lists_with(
        &self,
        alloc: Global,
        tile: u32,
        markers: &TileMarkers,
    ) -> Result<Vec<TileMarkers>, AllocError>
        requires { tile < length self.now }
        ensures { IfOk result (λ v. v.items ≡ answers_with markers.now tile self.now) }
    {
        let items = self.items.as_slice();
        let at = tile as usize;
        let mut lists = Vec::new(alloc);
        add_answers(&mut lists, &items[..at])?;
        lists.push(markers.copy()?)?;
        add_answers(&mut lists, &items[at + 1..])?;
        Ok(lists)
    }

    /// Stores the markers of a tile.
    pub(crate) fn keep(&mut self, tile: u32, markers: TileMarkers)
        requires { tile < length self.old }
        ensures { self.new ≡ set_tile (answered_by markers) tile self.old (slice_get self.old tile) }
    {
        self.items[tile as usize].keep(markers);
    }

    /// Counts that the tile was handed out.
    pub(crate) fn raise(&mut self, tile: u32)
        requires tile { tile < length self.old }
        requires counted { (x : TileValue) → slice_get self.old tile ≡ Some x → MayCount x }
        ensures { self.new ≡ set_tile raised tile self.old (slice_get self.old tile) }
    {
        self.items[tile as usize].raise();
    }
}

/// The number of answered tiles.
fn answer_count(tiles: &[Tile]) -> usize
    ensures { result ≡ answered tiles.now }
{
    let mut count = 0usize;
    for i in 0..tiles.len() {
        count += tiles[i].count();
    }
    count
}

/// Adds the markers of a tile, if it is answered.
fn add_answer(lists: &mut Vec<TileMarkers>, tile: &Tile) -> Result<(), AllocError>
    ensures { OnOk result (lists.new.items ≡ lists.old.items ++ option_to_list tile.now.answer) }
{
    if let Some(answer) = &tile.answer {
        lists.push(answer.copy()?)?;
    }
    Ok(())
}

/// Adds the markers of the answered tiles, in order.
fn add_answers(lists: &mut Vec<TileMarkers>, tiles: &[Tile]) -> Result<(), AllocError>
    ensures { OnOk result (lists.new.items ≡ lists.old.items ++ answers_of tiles.now) }
{
    for i in 0..tiles.len() {
        add_answer(lists, &tiles[i])?;
    }
    Ok(())
}

/// An unanswered tile before others: it is taken unless one of those was handed out fewer times.
fn first_of(number: u32, tile: &Tile, others: Option<(u32, u64)>) -> Option<(u32, u64)>
    ensures { (rest : Option Offer) → (others ≡ option_map handed_out rest)
        → result ≡ option_map handed_out (offered tile.now.answer (record { number = number; tile = tile.now }) rest) }
{
    if tile.answer.is_some() {
        return others;
    }
    match others {
        Some((_, taken)) if taken < tile.taken => others,
        _ => Some((number, tile.taken)),
    }
}
