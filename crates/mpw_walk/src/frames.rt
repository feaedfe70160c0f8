//! The structures that a walk has entered, one for each level, in a stack of fixed size. Takes no memory.

ghost use Rattle.std.specs.Prelude.{◌≡◌, ◌<◌, [], ◌∷◌, ◌++◌, length, IfNone};
ghost use Rattle.std.specs.Option.{option_to_list};

use crate::frame::Frame;
use std::marker::Model;

/// The greatest number of levels.
const MAX_LEVELS: usize = 64;

/// At most 64 frames. The last one was entered last.
#[derive(Drop)]
pub struct Frames<'a> {
    /// The first places, as many as are in use, have a frame each.
    places: [Option<Frame<'a>>; MAX_LEVELS],
    taken: usize,
}

impl<'a> Model for Frames<'a> {
    ghost use Rattle.mpw_walk.specs.Internal.Stack.{Stack, stack_of, AreFrames};

    ghost Value = { Stack };

    ghost view = { λ s. stack_of s.places s.taken };

    ghost invariant = { λ s. AreFrames s.places s.taken };
}

impl<'a> Frames<'a> {
    /// No frame.
    pub fn new() -> Frames<'a>
        ensures { result.items ≡ [] }
    {
        Frames {
            places: [None; MAX_LEVELS],
            taken: 0,
        }
    }

    /// Adds a frame after the others.
    pub fn push(&mut self, frame: Frame<'a>)
        requires { length self.old.items < 64 }
        ensures { self.new.items ≡ self.old.items ++ frame.entry ∷ [] }
    {
        let place = self.taken;
        // An array whose elements refer to memory is accessed by a slice of it.
        let places = &mut self.places[..];
        places[place] = Some(frame);
        self.taken = place + 1;
    }

    /// Removes the last frame and returns it.
    pub fn pop(&mut self) -> Option<Frame<'a>>
        ensures items { self.old.items ≡ self.new.items ++ option_to_list result }
        ensures none { IfNone result (self.old.items ≡ []) }
    {
        if self.taken == 0 {
            return None;
        }
        self.taken -= 1;
        let places = &self.places[..];
        places[self.taken]
    }
}
