//! Histories of right answers.

ghost use Rattle.mpw_events.specs.Step.{new_state};
ghost use Rattle.mpw_run_laws.specs.Right.{BooksAreOfTheLayout, IsRight, IsRightHistory};

use mpw_core::Core;
use mpw_events::Event;
use mpw_job::answers_make_the_layout;
use mpw_run::stitched_computes;

/// After a history whose calls are legal and hand in right answers, the book of a finished run has exactly the markers of the flat layout
/// of its snapshot. A law: the function does nothing.
pub fn right_answers_make_the_layout()
    ensures { BooksAreOfTheLayout }
{
    answers_make_the_layout();
    stitched_computes();
}

/// The history of each desk is such a one: an answer is right by its type. It visits the calls, and changes nothing.
pub fn histories_are_right(core: &Core)
    ensures { IsRightHistory (new_state core.now.officer core.now.digest) core.now.history }
{
    let calls = core.history();
    for call in calls {
        hand_in(&call.event);
    }
}

/// The answer that the event hands in is right. The function changes nothing.
fn hand_in(event: &Event)
    ensures { IsRight event.now }
{
    match event {
        Event::Cut(answer) => {
            answer.get().is_answer();
            answer.get().job().snapshot.is_snapshot();
        }
        Event::Tile(answer) => answer.get().is_answer(),
        Event::Ask {
            connection: _,
            request: _,
        }
        | Event::Gone { connection: _ }
        | Event::Take { worker: _ }
        | Event::Restart => {}
    }
}
