//! What the lines give: a deck, a name, markers, and what a full report has besides.

use anyhow::{Result, bail};
use gate_words::{Words, key};
use mpw_deck::{Deck, read_deck};
use mpw_firm_report::{Fault, Note};
use mpw_geom::{Box2, Layer, Name};
use mpw_markers::{Marker, Met};
use std::alloc::{AllocError, Global};

/// A fault of an element.
#[derive(Drop)]
struct Seen {
    code: String,
    byte: u64,
    structure: Option<Name>,
    area: Option<Box2>,
}

/// What is reported of what a check looks at.
#[derive(Drop)]
enum Noted {
    NoRules,
    Idle(Name, Layer),
    Unnamed(Layer, usize),
    Unchecked,
}

/// What the lines give.
#[derive(Drop)]
pub struct Given {
    deck: String,
    /// The name of the structure.
    pub top: Option<Name>,
    /// The markers, in their order.
    pub markers: Vec<Marker>,
    /// The layout's file.
    pub original: Option<String>,
    /// The most items of a rule.
    pub limit: usize,
    /// How many markers each rule has.
    pub counts: Option<Vec<usize>>,
    notes: Vec<Noted>,
    faults: Vec<Seen>,
    is_deck: bool,
}

/// Takes a fault: its code, its byte, its structure or `-`, and its box if there is one.
fn read_fault(alloc: Global, words: &mut Words<'_>) -> Result<Seen> {
    let code = words.next();
    let byte = u64::from(words.number());
    let structure = match words.next() {
        "-" => None,
        structure => Some(Name::read(alloc, structure.as_bytes())?),
    };
    let area = if words.is_empty() {
        None
    } else {
        Some(words.area())
    };
    Ok(Seen {
        code: String::from_str(alloc, code)?,
        byte,
        structure,
        area,
    })
}

/// Takes a layer of two numbers.
fn layer(words: &mut Words<'_>) -> Layer {
    Layer {
        layer: u16::try_from(words.number()).unwrap_or(0),
        datatype: u16::try_from(words.number()).unwrap_or(0),
    }
}

/// Takes a note: `norules`, `unchecked`, `idle RULE LAYER DATATYPE` or `unnamed LAYER DATATYPE SHAPES`.
fn read_note(alloc: Global, words: &mut Words<'_>) -> Result<Noted> {
    match words.next() {
        "norules" => Ok(Noted::NoRules),
        "unchecked" => Ok(Noted::Unchecked),
        "idle" => {
            let rule = Name::read(alloc, words.next().as_bytes())?;
            Ok(Noted::Idle(rule, layer(words)))
        }
        "unnamed" => Ok(Noted::Unnamed(layer(words), words.number() as usize)),
        _ => bail!("a note"),
    }
}

/// Takes all numbers.
fn read_counts(alloc: Global, words: &mut Words<'_>) -> Result<Vec<usize>> {
    let mut counts = Vec::new(alloc);
    for word in words.rest().split_whitespace() {
        counts.push(word.parse::<usize>()?)?;
    }
    Ok(counts)
}

impl Given {
    /// Nothing yet.
    pub fn new(alloc: Global) -> Given {
        Given {
            deck: String::new(alloc),
            top: None,
            markers: Vec::new(alloc),
            original: None,
            limit: usize::MAX,
            counts: None,
            notes: Vec::new(alloc),
            faults: Vec::new(alloc),
            is_deck: true,
        }
    }

    /// Takes what a line gives after the name.
    fn take_line(&mut self, alloc: Global, line: &str) -> Result<()> {
        let mut words = Words::of(line);
        match words.next() {
            "original" => self.original = Some(String::from_str(alloc, words.rest())?),
            "limit" => self.limit = words.number() as usize,
            "counts" => self.counts = Some(read_counts(alloc, &mut words)?),
            "note" => self.notes.push(read_note(alloc, &mut words)?)?,
            "fault" => self.faults.push(read_fault(alloc, &mut words)?)?,
            _ => {
                words = Words::of(line);
                let key = key(&mut words);
                let met = Met::none();
                self.markers.push(Marker { key, met })?;
            }
        }
        words.end()
    }

    /// Takes what a line gives.
    pub fn take(&mut self, alloc: Global, line: &str) -> Result<()> {
        if line == "--" {
            self.is_deck = false;
        } else if self.is_deck {
            self.deck.push_str(line)?;
            self.deck.push_str("\n")?;
        } else if self.top.is_none() {
            self.top = Some(Name::read(alloc, line.as_bytes())?);
        } else {
            return self.take_line(alloc, line);
        }
        Ok(())
    }

    /// The deck.
    pub fn deck(&self, alloc: Global) -> Result<Deck> {
        Ok(read_deck(alloc, self.deck.as_bytes())?)
    }

    /// The notes.
    pub fn notes(&self, alloc: Global) -> Result<Vec<Note<'_>>, AllocError> {
        let mut notes = Vec::new(alloc);
        for note in &self.notes {
            notes.push(match note {
                Noted::NoRules => Note::NoRules,
                Noted::Idle(rule, layer) => Note::Idle(rule, *layer),
                Noted::Unnamed(layer, shapes) => Note::Unnamed(*layer, *shapes),
                Noted::Unchecked => Note::Unchecked,
            })?;
        }
        Ok(notes)
    }

    /// The faults.
    pub fn faults(&self, alloc: Global) -> Result<Vec<Fault<'_>>, AllocError> {
        let mut faults = Vec::new(alloc);
        for seen in &self.faults {
            faults.push(Fault {
                code: seen.code.as_str(),
                byte: seen.byte,
                structure: seen.structure.as_ref(),
                area: seen.area,
            })?;
        }
        Ok(faults)
    }
}
