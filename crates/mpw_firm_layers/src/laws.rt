//! Laws about the definitions. The function does nothing; its contract is the law.

ghost use Rattle.mpw_seen.specs.Internal.Shown.{NamesAreShown};

use mpw_hier::{names_list_their_targets, names_show_their_targets};
use std::marker::Model;

/// A shape of a flat list, for which laws of lists of any kind are called. No value of this type exists.
#[derive(Drop)]
struct Shown;

impl Model for Shown {
    ghost use Rattle.mpw_hier.specs.Items.{Item};
    ghost use Rattle.mpw_seen.specs.Internal.Shown.{some_item};

    ghost Value = { Item };

    ghost view = { λ _. some_item };
}

/// The content of a name, for a submission, is that of its structure, or that of the top of the submission to which it is bound. The content
/// of a submission is that of its top.
pub fn names_are_shown()
    ensures { NamesAreShown }
{
    names_show_their_targets();
    names_list_their_targets::<Shown>();
}
