//! Reports of a check in groups: the columns of a group come after those of the groups before.

use mpw_columns::Progress;

/// Reports the columns and the markers of a group as further ones. No contract depends on it.
pub(crate) struct Following<'a, P> {
    progress: &'a mut P,
    /// The columns of the groups before, and their markers.
    columns: usize,
    markers: usize,
    /// The number of groups that follow. Each counts as one column until it begins.
    left: usize,
    /// The columns and the markers that the group reported last.
    found: (usize, usize),
}

impl<P> Drop for Following<'_, P> {
    fn drop(self) {
        let Following {
            progress: _,
            columns: _,
            markers: _,
            left: _,
            found: _,
        } = self;
    }
}

impl<'a, P> Following<'a, P> {
    /// Reports to `progress`, for so many groups. None has begun.
    pub(crate) fn new(progress: &'a mut P, groups: usize) -> Following<'a, P> {
        Following {
            progress,
            columns: 0,
            markers: 0,
            left: groups,
            found: (0, 0),
        }
    }

    /// The next group begins.
    pub(crate) fn begin(&mut self) {
        self.columns = self.columns.saturating_add(self.found.0);
        self.markers = self.markers.saturating_add(self.found.1);
        self.left = self.left.saturating_sub(1);
        self.found = (0, 0);
    }
}

impl<P: Progress> Progress for Following<'_, P> {
    fn tell(&mut self, done: usize, total: usize, markers: usize) {
        self.found = (total, markers);
        let done = self.columns.saturating_add(done);
        let all = self.columns.saturating_add(total).saturating_add(self.left);
        self.progress
            .tell(done, all, self.markers.saturating_add(markers));
    }

    fn has_room(&mut self, markers: usize) -> bool {
        self.progress.has_room(self.markers.saturating_add(markers))
    }
}
