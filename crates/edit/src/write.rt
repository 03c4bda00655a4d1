// Writes characters at the cursor.
use crate::cell::cell_count;
use crate::moves::round;
use crate::view::View;
use screen::interface::Screen;

impl<'s, S: Screen> View<'s, S> {
    ghost use Rattle.std.specs.Prelude.{◌≡◌};
    ghost use Rattle.edit.specs.Writing.{typed_run};
    ghost use Rattle.edit.specs.Shown.{shown, beside};

    // Writes characters over any cells from the cursor on, going round. Count and place are kept beside the view, since
    // each character would read and write them anew.
    pub fn write_run(&mut self, run: &[u8], protected: bool)
        ensures beside { beside self.new ≡ beside self.old }
        ensures view { shown self.new ≡ typed_run protected run.now (shown self.old) }
    {
        let count = cell_count(self.screen);
        let mut place = self.cursor;
        for code in run {
            let _ = self.screen.write(place, *code, protected);
            place = round(place + 1, count);
        }
        self.cursor = place;
    }
}
