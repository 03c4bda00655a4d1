// A number's octets, read and written.
ghost use Rattle.std.specs.Prelude.{◌≡◌, ◌+◌, ◌^◌, ◌<◌, ◌≤◌, length, drop, Ok, Err, MatchResult};
ghost use Rattle.area.specs.Over.{written_at};
ghost use Rattle.page.specs.Numbers.{number, read, first_number};

use crate::refusal::Refusal;

// How many octets a number takes.
pub(crate) fn number_length(n: usize) -> usize
    ensures length { result ≡ length (number n) }
    ensures few { result ≤ 2 }
{
    if n < 0x80 { 1 } else { 2 }
}

// The number that octets begin with, and how many octets it takes.
pub(crate) fn first_number(octets: &[u8]) -> Result<(usize, usize), Refusal>
    ensures { MatchResult result (λ p. (first_number octets.now ≡ Ok (read p.0 (drop p.1 octets.now))) × (p.1 ≤ length octets.now)) (λ e. first_number octets.now ≡ Err e) }
{
    match octets {
        [low @ 0..=0x7f, ..] => Ok((*low as usize, 1)),
        [low, high @ 1..=0x7f, ..] => { Ok((*low as usize - 0x80 + 0x80 * *high as usize, 2)) }
        [_, _, ..] => Err(Refusal::WrongNumber),
        _ => Err(Refusal::CutShort),
    }
}

// Writes a number's octets from a place on, where they have room, and answers the place behind them: a writer
// that kept area and place would owe clauses on both.
pub(crate) fn put_number(area: &mut [u8], place: usize, n: usize) -> usize
    requires small { n < 2 ^ 14 }
    requires room { place + length (number n) ≤ length area.old }
    ensures area { area.new ≡ written_at area.old place (number n) }
    ensures next { result ≡ place + length (number n) }
{
    if n < 0x80 {
        area[place] = n as u8;
        return place + 1;
    }
    area[place] = (0x80 + n % 0x80) as u8;
    area[place + 1] = (n / 0x80) as u8;
    place + 2
}
