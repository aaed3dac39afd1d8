// A search by halves: the places that are left, their middle, and the half that is left once the middle is seen.
#![tactic(auto)]

ghost use Rattle.std.specs.Prelude.{◌≡◌, ◌<◌};
ghost use Rattle.bisect.specs.Window.{mid_of, half_of};

// The places that are left in a search: from `lo` up to `hi`.
#[derive(Clone, Copy)]
pub struct Window {
    pub lo: usize,
    pub hi: usize,
}

// The middle of the places that are left. Internal. Requires: a place is left.
pub fn middle(w: Window) -> usize
    requires { w.lo < w.hi }
    ensures { result ≡ mid_of w }
{
    w.lo + (w.hi - w.lo) / 2
}

// The half that is left: past the middle if what stands there is passed, else up to it. Internal. Requires: a place is left.
pub fn half(w: Window, passed: bool) -> Window
    requires { w.lo < w.hi }
    ensures { result ≡ half_of w passed }
{
    let m = middle(w);
    if passed {
        Window {
            lo: m + 1,
            hi: w.hi,
        }
    } else {
        Window { lo: w.lo, hi: m }
    }
}
