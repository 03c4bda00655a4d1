ghost use Rattle.std.specs.Prelude.{◌≡◌, ℕ, ◌*◌, ◌≤◌, List, length, drop, replicate};
ghost use Rattle.std.specs.Borrow.{GName};
ghost use Rattle.screen.specs.Cells.{blank};
ghost use Rattle.stores.specs.Words.{word_grid, word_sound, AllStorable};

use crate::size::Size;
use crate::word::{parts_of, word_of};
use screen::interface::Screen;
use screen::refusal::Refusal;

// A word of 16 bits a cell, in the caller's area. Words of the area beyond the cells are never touched.
#[derive(Drop)]
pub struct WordStore<'a> {
    words: &'a mut [u16],
    size: Size,
    ghost room: { size.rows * size.columns ≤ length words.now },
    ghost held: { AllStorable (size.rows * size.columns) words.now },
}

impl<'a> WordStore<'a> {
    // A store of open spaces in the first words of an area that has room for them, as `Size::in_area` finds out.
    pub fn new(area: &'a mut [u16], size: Size) -> WordStore<'a>
        requires { size.rows * size.columns ≤ length area.old }
        ensures area { result.words.ghost_name ≡ area.entry.ghost_name }
        ensures grid { word_grid result.size.rows result.size.columns result.words.now ≡ record { rows = size.rows; columns = size.columns; cells = replicate (size.rows * size.columns) blank } }
        ensures rest { drop (size.rows * size.columns) result.words.now ≡ drop (size.rows * size.columns) area.old }
    {
        area[..size.rows * size.columns].fill(word_of(codes::SPACE, false));
        WordStore { words: area, size }
    }
}

impl<'a> Screen for WordStore<'a> {
    ghost grid = { λ s. word_grid s.size.rows s.size.columns s.words.now };

    // the area, and its words beyond the cells
    ghost Rest = { GName × List ℕ };

    ghost rest = { λ s. (s.words.ghost_name, drop (s.size.rows * s.size.columns) s.words.now) };

    ghost sound = { λ s. word_sound s.size.rows s.size.columns s.words.now s.size.allowed s.room s.held };

    fn rows(&self) -> usize {
        self.size.rows
    }

    fn columns(&self) -> usize {
        self.size.columns
    }

    #[tactic(auto, using(crate::proofs::Words::shown))]
    fn read(&self, place: usize) -> Result<(u8, bool), Refusal> {
        self.size.check_place(place)?;
        Ok(parts_of(self.words[place]))
    }

    #[tactic(auto, using(crate::proofs::Words::shown))]
    fn write(&mut self, place: usize, code: u8, mark: bool) -> Result<(), Refusal> {
        self.size.check_write(place, code)?;
        self.words[place] = word_of(code, mark);
        Ok(())
    }

    // moves the word as it stands
    #[tactic(auto, using(crate::proofs::Words::shown))]
    fn copy_cell(&mut self, to: usize, from: usize) -> Result<(), Refusal> {
        self.size.check_place(to)?;
        self.size.check_place(from)?;
        self.words[to] = self.words[from];
        Ok(())
    }
}
