//! The laws. Each function has an empty body; its contract is the law.

ghost use Rattle.mpw_text_laws.specs.Replies.{DesksListAsChecks, ListingsAreReplies};

use mpw_firm_listing::whole_keys_are_numbers;
use mpw_hier::shelves_have_their_numbers;
use mpw_job::each_marker_meets_some;

/// The listing that a check prints of a layout's markers is, byte for byte, a desk's reply for one who may read the layout's only
/// submission.
pub fn listings_are_replies()
    ensures { ListingsAreReplies }
{
    whole_keys_are_numbers();
    shelves_have_their_numbers();
    each_marker_meets_some();
}

/// Let a desk's finished run have exactly the markers of its layout, and let its shelf have one submission, placed anywhere and in any
/// number. Then the desk replies to `markers`, if the session may read that cell, with the listing that a check prints of these
/// markers under the cell's name.
pub fn desks_list_as_checks()
    ensures { DesksListAsChecks }
{
    whole_keys_are_numbers();
    shelves_have_their_numbers();
    each_marker_meets_some();
}
