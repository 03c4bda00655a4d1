// Draws one step of a host text.
ghost use Rattle.std.specs.Prelude.{◌≡◌};
ghost use Rattle.text.specs.Shown.{shown};
ghost use Rattle.edit.specs.View.{view, at};
ghost use Rattle.edit.specs.Shown as seen;
ghost use Rattle.host.specs.Drawing.{effect, protects, drawn, escape_drawn, control_drawn};

use crate::effect::Effect;
use codes::{BEL, CR, DC1, DC4, FS, GS, HT, RS, SI, SO};
use edit::edits::{Edit, Motion};
use edit::view::View;
use screen::interface::Screen;
use text::step::Step;
use transmission::kind::Kind;

// What a step does beside drawing.
pub(crate) fn effect_of(step: Step) -> Option<Effect>
    ensures { result ≡ effect (shown step.entry) }
{
    match step {
        Step::Escape('\x11') => Some(Effect::Transmit(Kind::Display)),
        Step::Escape('\x14') => Some(Effect::Lock),
        Step::Control(DC1) => Some(Effect::Transmit(Kind::Open)),
        Step::Control(DC4) => Some(Effect::Lock),
        Step::Control(BEL) => Some(Effect::Light),
        _ => None,
    }
}

// Whether what is written after a step is protected.
pub(crate) fn protects(protected: bool, step: Step) -> bool
    ensures { result ≡ protects protected (shown step.entry) }
{
    match step {
        Step::Control(SO) => true,
        Step::Control(SI) => false,
        _ => protected,
    }
}

// ESC and a code.
fn draw_escape<S: Screen>(view: &mut View<S>, protected: bool, letter: char)
    ensures beside { seen.beside view.new ≡ seen.beside view.old }
    ensures view { seen.shown view.new ≡ escape_drawn protected letter (seen.shown view.old) }
{
    if letter == '\t' {
        view.write_run(&[HT], protected);
    } else if let Some(edit) = Edit::of_letter(letter) {
        view.apply(edit);
    }
}

// Any other code.
fn draw_control<S: Screen>(view: &mut View<S>, protected: bool, code: u8)
    ensures beside { seen.beside view.new ≡ seen.beside view.old }
    ensures view { seen.shown view.new ≡ control_drawn protected code (seen.shown view.old) }
{
    match code {
        FS | GS | RS => view.write_run(&[code], protected),
        CR => view.apply(Edit::Move(Motion::Return)),
        HT => view.apply(Edit::Move(Motion::Tab)),
        _ => {}
    }
}

// Draws a step, and answers where the cursor is then.
pub(crate) fn draw<S: Screen>(screen: &mut S, cursor: usize, protected: bool, step: Step) -> usize
    ensures rest { S.rest screen.new ≡ S.rest screen.old }
    ensures view { view (S.grid screen.new) result ≡ drawn protected (shown step.entry) (at (S.grid screen.old) cursor) }
{
    let mut view = View::at(screen, cursor);
    match step {
        Step::Run(run, _) => view.write_run(run, protected),
        Step::Address(row, column) => view.move_to(row, column),
        Step::Escape(letter) => draw_escape(&mut view, protected, letter),
        Step::Control(code) => draw_control(&mut view, protected, code),
        Step::Broken => {}
    }
    view.cursor()
}
