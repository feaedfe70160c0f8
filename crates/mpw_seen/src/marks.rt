//! Finds which submissions a submission reaches.

ghost use Rattle.std.specs.Prelude.{◌≡◌, ◌<◌, ◌≤◌, length, IfOk};
ghost use Rattle.mpw_seen.specs.Internal.Marks.{AreMarked, AreReached};

use mpw_hier::{Binding, Shelf};
use std::alloc::{AllocError, Global};

/// Marks the submissions of bindings whose number is less than `below`.
fn mark_bound(bindings: &[Binding], below: usize, marks: &mut [bool])
    requires { below ≤ length marks.old }
    ensures { AreMarked bindings.now (length bindings.now) below marks.old marks.new }
{
    for binding in bindings {
        let number = binding.submission as usize;
        if number < below {
            marks[number] = true;
        }
    }
}

/// Marks the submission with a number, and all that it reaches: those to which its names are bound, and so on. Cost: one pass over
/// their bindings, and a mark for each submission up to the number.
///
/// # Errors
/// Out of memory.
pub fn marks_from(alloc: Global, shelf: &Shelf, number: u32) -> Result<Vec<bool>, AllocError>
    requires { number < length shelf.now }
    ensures { IfOk result (λ marks. AreReached shelf.now number 0 marks.items) }
{
    let submissions = shelf.submissions();
    let many = number as usize + 1;
    let mut marks = vec![in alloc; false; many]?;
    marks[number as usize] = true;
    for place in (0..many).rev() {
        if marks[place] {
            mark_bound(submissions[place].bound.as_slice(), place, &mut marks);
        }
    }
    Ok(marks)
}
