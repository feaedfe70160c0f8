//! Libraries whose unit is a part of a nanometre. `specs/Grids.antt` has what contracts say of it.
ghost use Rattle.std.specs.Prelude.{◌≡◌, ◌*◌, Some, option_map, IfErr, IfOk};
ghost use Rattle.mpw_firm.specs.Grids.{beyond_text, library_on, part_text, whole_option, IsGridDeck, IsGridOf, IsOfDistance, IsOfPart};
ghost use Rattle.mpw_firm_messages.specs.Told.{Refuses};

use mpw_deck::{Deck, Rule};
use mpw_firm_grid::{Parts, deck_on, first_beyond, grid_parts, on_grid};
use mpw_firm_messages::{FirmFault, refusal};
use mpw_firm_options::{Choices, Options};
use std::alloc::{AllocError, Global};

/// A deck on a grid.
#[derive(Drop)]
pub struct GridDeck {
    /// The deck.
    pub deck: Deck,
    /// The parts of a nanometre that its lengths count.
    pub parts: Parts,
}

/// The first option that the words give and that takes whole nanometres alone.
#[tactic(auto, unfolding(crate::specs::Grids::whole_option))]
pub fn whole_option(options: &Options, choices: &Choices) -> Option<&'static str>
    ensures { option_map (λ option. option.now) result ≡ whole_option options.now choices.now }
{
    if options.report.is_some() {
        Some("--report")
    } else if options.picture.is_some() {
        Some("--picture")
    } else if choices.faults {
        Some("--faults")
    } else if choices.faultless {
        Some("--skip-faulty")
    } else if choices.unreached {
        Some("--skip-unreached")
    } else {
        None
    }
}

/// The sentence about a file whose unit is one of so many parts of a nanometre, and an option that takes whole nanometres alone.
#[tactic(auto, unfolding(crate::specs::Grids::part_text))]
fn of_part(alloc: Global, file: &str, parts: u16, option: &str) -> FirmFault
    ensures { Refuses (part_text file.now parts option.now) result }
{
    refusal(format!(in alloc;
        "{file}: the unit is 1/{parts} nm, and {option} takes whole nm: export with a unit of 1 nm, or check \
        without {option}"
    ))
}

/// The parts of a nanometre that the unit of a library's text is, if it is such a part. `option` takes whole nanometres alone.
///
/// # Errors
/// `Refused` if the unit is such a part and there is such an option; and `Memory`.
pub fn grid_of(
    alloc: Global,
    file: &str,
    option: Option<&str>,
    text: &[u8],
) -> Result<Option<Parts>, FirmFault>
    ensures grid { IfOk result (IsGridOf (option_map (λ option. option.now) option.entry) text.now) }
    ensures refused { IfErr result (IsOfPart file.now (option_map (λ option. option.now) option.entry) text.now) }
{
    let Some(parts) = grid_parts(text) else {
        return Ok(None);
    };
    match option {
        Some(option) => Err(of_part(alloc, file, parts.count(), option)),
        None => Ok(Some(parts)),
    }
}

/// A library's text on that grid.
///
/// # Errors
/// Out of memory.
pub fn library_on(
    alloc: Global,
    grid: &Option<Parts>,
    library: Vec<u8>,
) -> Result<Vec<u8>, AllocError>
    ensures { IfOk result (λ text. text.items ≡ library_on grid.now library.items) }
{
    match grid {
        Some(_) => on_grid(alloc, &library),
        None => Ok(library),
    }
}

/// The sentence about a rule whose distance has too many parts.
#[tactic(auto, unfolding(crate::specs::Grids::beyond_text))]
fn beyond_sentence(alloc: Global, name: &str, distance: u32, many: u64, parts: u16) -> FirmFault
    ensures { Refuses (beyond_text name.now distance many parts) result }
{
    refusal(format!(in alloc;
        "rule {name}: {distance} nm are {many} parts of 1/{parts} nm, and a rule has at most 65535: export with \
        a unit of 1 nm"
    ))
}

/// The same of the rule.
fn beyond(alloc: Global, rule: &Rule, parts: u16) -> FirmFault
    ensures { Refuses (beyond_text rule.now.name rule.now.distance (rule.now.distance * parts) parts) result }
{
    let many = u64::from(rule.distance) * u64::from(parts);
    beyond_sentence(alloc, rule.name.as_str(), rule.distance, many, parts)
}

/// A deck whose lengths count so many parts.
fn on_parts(alloc: Global, deck: &Deck, parts: Parts) -> Result<GridDeck, FirmFault>
    ensures made { IfOk result (λ made. IsGridDeck (Some parts) deck.now made) }
    ensures refused { IfErr result (IsOfDistance (Some parts) deck.now) }
{
    match first_beyond(deck, &parts) {
        Some(rule) => Err(beyond(alloc, rule, parts.count())),
        None => Ok(GridDeck {
            deck: deck_on(alloc, deck, &parts)?,
            parts,
        }),
    }
}

/// A deck on that grid.
///
/// # Errors
/// `Refused` if a rule's distance has more parts than a rule may have; and `Memory`.
pub fn grid_deck(alloc: Global, deck: Deck, grid: Option<Parts>) -> Result<GridDeck, FirmFault>
    ensures made { IfOk result (IsGridDeck grid deck) }
    ensures refused { IfErr result (IsOfDistance grid deck) }
{
    match grid {
        Some(parts) => on_parts(alloc, &deck, parts),
        None => Ok(GridDeck {
            deck,
            parts: Parts::whole(),
        }),
    }
}
