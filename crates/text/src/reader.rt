// A reader that hands out the steps of a text one by one.
ghost use Rattle.std.specs.Prelude.{◌≡◌, ◌+◌, ◌≤◌, [], ◌∷◌, length, drop, IfSome, IfNone};
ghost use Rattle.std.specs.Iterator.{YieldsFirstBy, item_count};
ghost use Rattle.std.specs.List.{prefix_len};
ghost use Rattle.codes.specs.Classes.{is_data};
ghost use Rattle.text.specs.Steps.{address_at, steps, steps_of};
ghost use Rattle.text.specs.Shown.{shown, unread};

use crate::step::Step;
use codes::class::Class;
use codes::{ESC, SI, SPACE, VT};

// A text, and the place of what was not handed out yet.
#[derive(Drop)]
pub struct Reader<'a> {
    text: &'a [u8],
    place: usize,
}

#[tactic(auto, unfolding(codes::specs::Classes::class_of))]
fn is_data(code: u8) -> bool
    ensures { result ≡ is_data code }
{
    Class::of(code) == Class::Data
}

// How many data characters a text begins with.
fn run_len(text: &[u8]) -> usize
    ensures run { result ≡ prefix_len is_data text.now }
    ensures within { result ≤ length text.now }
{
    text.iter().take_while(|code| is_data(**code)).count()
}

// What ESC VT makes with what follows, and how many characters they take together.
fn address_step<'a>(after: &[u8]) -> (Step<'a>, usize)
    ensures step { shown result.0 ≡ (address_at after.now).step }
    ensures taken { result.1 ≡ (address_at after.now).taken }
{
    match after {
        [row, column, SI, ..] if is_data(*row) && is_data(*column) => {
            (Step::Address(row - SPACE, column - SPACE), 5)
        }
        _ => (Step::Broken, 2 + run_len(after).min(2)),
    }
}

// The first step of what is left of a text at a place, and how many characters it takes.
#[tactic(auto, using(crate::proofs::Pieces::steps_address, crate::proofs::Pieces::steps_run, std::proofs::lemmas::List::take_all))]
fn first_step<'a>(rest: &'a [u8], place: usize) -> Option<(Step<'a>, usize)>
    ensures none { IfNone result (rest.now ≡ []) }
    ensures within { IfSome result (λ s. s.1 ≤ length rest.now) }
    ensures some { IfSome result (λ s. steps place 0 rest.now ≡ shown s.0 ∷ steps (place + s.1) 0 (drop s.1 rest.now)) }
{
    match rest {
        [] => None,
        [code, ..] if is_data(*code) => {
            let len = run_len(rest);
            Some((Step::Run(&rest[..len], place), len))
        }
        [ESC] => Some((Step::Broken, 1)),
        [ESC, VT, after @ ..] => Some(address_step(after)),
        [ESC, code, ..] => Some((Step::Escape(*code as char), 2)),
        [code, ..] => Some((Step::Control(*code), 1)),
    }
}

impl<'a> Reader<'a> {
    pub fn new(text: &'a [u8]) -> Reader<'a>
        ensures { unread result ≡ steps_of text.now }
    {
        Reader { text, place: 0 }
    }
}

// Each step in its turn, until every octet of the text is taken.
impl<'a> Iterator for Reader<'a> {
    type Item = Step<'a>;

    ghost next_gives = { YieldsFirstBy shown unread };

    ghost remaining = { item_count unread };

    fn next(&mut self) -> Option<Step<'a>> {
        let rest = self.text.get(self.place..)?;
        let (step, taken) = first_step(rest, self.place)?;
        self.place += taken;
        Some(step)
    }
}
