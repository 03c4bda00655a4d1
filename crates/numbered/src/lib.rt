// Refusals by number: one list of numbers for all layers, and each layer's refusals know theirs.
#![tactic(auto)]

ghost use Rattle.std.specs.Prelude.{◌≡◌, ℕ};

// Why a call is refused.
pub trait Numbered {
    // the number of each refusal
    ghost number_of: { Self → ℕ };

    fn number(&self) -> u8
        ensures { result ≡ number_of self.now };
}
