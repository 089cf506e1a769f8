// Slots that a call notes: numbers below 1,024 in the order in which they are noted, in a fixed buffer.

#![tactic(auto)]

ghost use Rattle.std.specs.Prelude.{◌≡◌, Bool, false, ℕ, ◌<◌, ◌≤◌, [], ◌∷◌, ◌++◌, length};
ghost use Rattle.bounded.specs.Limits.{max_slots};
ghost use Rattle.bounded.specs.Below.{list_below};

// The slots noted so far.
#[derive(Clone, Copy)]
pub struct Slots {
    numbers: [u16; 1024],
    count: usize,
    ghost counted: { count ≤ 1024 },
}

impl Slots {
    ghost use Rattle.noted.specs.Noted.{noted};

    // None is noted.
    pub fn new() -> Slots
        ensures { noted result ≡ [] }
    {
        Slots {
            numbers: [0; 1024],
            count: 0,
        }
    }

    // One more is noted, behind the others.
    pub fn push(&mut self, slot: u32)
        requires room { length (noted self.old) < max_slots }
        requires slot_bound { slot < max_slots }
        ensures { noted self.new ≡ noted self.old ++ (slot ∷ []) }
    {
        self.numbers[self.count] = slot as u16;
        self.count += 1;
    }

    // Those of the slots `from..to` that pass are noted, rising, in place of what was. They are noted in the caller's list, since a list that is
    // returned stands on the stack twice.
    pub fn note_passing<F: Fn(u32) -> bool>(&mut self, from: u32, to: u32, passes: F)
        requires ordered { from ≤ to }
        requires to_bound { to ≤ max_slots }
        requires callable { (k : ℕ) → from ≤ k → k < to → F.pre passes k }
        ensures { (f : ℕ → Bool)
            → ((k : ℕ) → k < from → f k ≡ false)
            → ((k : ℕ) (b : Bool) → from ≤ k → k < to → F.post passes k b → b ≡ f k)
            → noted self.new ≡ list_below to f }
    {
        self.count = 0;
        for k in from..to {
            if passes(k) {
                self.push(k);
            }
        }
    }

    // The slots noted, in their order.
    pub fn as_slice(&self) -> &[u16]
        ensures { result.now ≡ noted self.now }
    {
        &self.numbers[..self.count]
    }
}
