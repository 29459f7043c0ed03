// A turn for strings of any lengths. A file of its own, so that who brings in all of `starts` has one method of the name `step`.
ghost use Rattle.std.specs.Prelude.{◌≡◌, ◌+◌, ◌≤◌, ℕ, List, length};
ghost use Rattle.hits.specs.Turns.{Turn};
ghost use Rattle.hits.specs.Counts.{turn_of};

use hits::work::Turned;

pub trait Steps {
    // What the rule does at a start.
    ghost turn: { List ℕ → List ℕ → ℕ → Turn ℕ };

    // That this is what the engine makes ready for the pattern.
    ghost ready: { Self → List ℕ → Type 0 };

    // A turn at start i.
    fn step(&self, p: &[u32], t: &[u32], i: usize) -> Turned
        requires { ready self.now p.now × (i + length p.now ≤ length t.now) }
        ensures { turn_of i result ≡ turn p.now t.now i };
}
