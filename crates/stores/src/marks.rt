ghost use Rattle.std.specs.Prelude.{◌≡◌, ℕ, ◌<◌};
ghost use Rattle.stores.specs.Marks.{bit_of, Marked};

// The bit `at` of a byte.
#[tactic(auto, using(std::proofs::lemmas::Nat::Bits::shr_and_one), unfolding(crate::specs::Marks::bit_of))]
pub(crate) fn mark_at(byte: u8, at: usize) -> bool
    requires { at < 8 }
    ensures { result ≡ bit_of byte at }
{
    (byte >> at) & 1 == 1
}

// The byte with the bit `at` set or cleared.
pub(crate) fn with_mark(old: u8, at: usize, mark: bool) -> u8
    requires { at < 8 }
    ensures { Marked old at mark result }
{
    let bit = 1u8 << at;
    if mark { old | bit } else { old & !bit }
}
