//! Stories: what a locked state tells of its steps.
ghost use Rattle.std.specs.Prelude.{◌≡◌, ◌-◌, ◌<◌, ◌≤◌, List, map, length, slice_get, Some};

/// A step of a story, with the number of its maker.
#[derive(Drop)]
pub struct Made<E> {
    pub maker: u32,
    pub step: E,
}

/// A state that stores its steps and who made each.
pub trait Story {
    ghost use Rattle.turn_lock.specs.declared.story.Made.{Made};

    /// What a step is. Plain data.
    type Step;

    /// What no step changes. Plain data.
    type Fixed;

    // The steps made so far, the newest first.
    ghost story: { Self → List (Made Self.Step) };

    // What no step changes.
    ghost fixed: { Self → Self.Fixed };

    // Some value of that type, no matter which. No clause says anything of it.
    ghost any_fixed: { Self.Fixed };

    /// How many steps were made.
    fn steps(&self) -> u64
        ensures { result ≡ length (story self.now) };

    /// Who made the step number `k`, counted from 1 at the oldest.
    fn maker(&self, k: u64) -> u32
        requires from_one { 0 < k }
        requires made { k ≤ length (story self.now) }
        ensures { slice_get (map (λ m. m.maker) (story self.now)) (length (story self.now) - k)
            ≡ Some result };
}
