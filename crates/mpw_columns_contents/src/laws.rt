//! Laws about the definitions. The function does nothing; its contract is the law.

ghost use Rattle.mpw_columns_contents.specs.Internal.Opening.{NamesAreOpened};

use mpw_hier::{extents_are_least_boxes, names_list_their_targets, names_show_their_targets};
use std::marker::Model;

/// An item of a flat list, for which laws of lists of any kind are called. No value of this type exists.
#[derive(Drop)]
struct Shown;

impl Model for Shown {
    ghost use Rattle.mpw_hier.specs.Items.{Item};
    ghost use Rattle.mpw_columns_contents.specs.Internal.Opening.{some_item};

    ghost Value = { Item };

    ghost view = { λ _. some_item };
}

/// The content of a library's name is that of its structure, and the content of a submission is that of its top. Extents contain
/// the content, and are placed with it.
pub fn names_are_opened()
    ensures { NamesAreOpened }
{
    names_show_their_targets();
    names_list_their_targets::<Shown>();
    extents_are_least_boxes();
}
