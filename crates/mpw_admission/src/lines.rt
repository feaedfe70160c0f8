//! How many lines may be read in a time: each takes its part out of a pail.
ghost use Rattle.std.specs.Prelude.{◌≡◌, ◌+◌, ◌*◌, ◌<◌, ◌≤◌, true};
ghost use Rattle.mpw_admission.specs.Pail.{level_after, level_at, may_read, since_after, wait_of};

use crate::pail::Pail;

/// What a line takes from a pail. A pail is measured in thousandths of a line.
const LINE: u64 = 1000;

impl Pail {
    /// A full pail.
    pub fn new(most: u32, rate: u32, now: u64) -> Pail
        requires { 0 < rate }
        ensures most { result.most ≡ most }
        ensures rate { result.rate ≡ rate }
        ensures full { result.level ≡ 1000 * most }
        ensures since { result.since ≡ now }
    {
        Pail {
            most,
            rate,
            level: LINE * u64::from(most),
            since: now,
        }
    }

    /// How many thousandths of a line it holds at a time.
    fn level_at(&self, now: u64) -> u64
        ensures level { result ≡ level_at self.now now }
        ensures holds { result ≤ 1000 * self.now.most }
    {
        let flowed = u64::from(self.rate).saturating_mul(now.saturating_sub(self.since));
        self.level
            .saturating_add(flowed)
            .min(LINE * u64::from(self.most))
    }

    /// How many milliseconds a line has to wait. It is 0 if a line may be read now, and a line may be read after so long.
    pub fn wait(&self, now: u64) -> u64
        ensures wait { result ≡ wait_of self.now now }
        ensures enough { self.now.since ≤ now → 0 < self.now.most → may_read self.now (now + result) ≡ true }
    {
        let rate = u64::from(self.rate);
        LINE.saturating_sub(self.level_at(now)).div_ceil(rate)
    }

    /// Takes a line out, and returns whether it held one. If not, it stays as it is.
    pub fn take(&mut self, now: u64) -> bool
        ensures taken { result ≡ may_read self.old now }
        ensures level { self.new.level ≡ level_after self.old now }
        ensures since { self.new.since ≡ since_after self.old now }
        ensures most { self.new.most ≡ self.old.most }
        ensures rate { self.new.rate ≡ self.old.rate }
    {
        let level = self.level_at(now);
        if level < LINE {
            return false;
        }
        self.level = level - LINE;
        self.since = now;
        true
    }
}
