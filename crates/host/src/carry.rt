// Carries out a whole host text.
ghost use Rattle.std.specs.Prelude.{◌≡◌, ◌<◌, false, not, ◌&&◌, ◌||◌, is_some};
ghost use Rattle.std.specs.Option.{option_or};
ghost use Rattle.text.specs.Steps.{steps_of};
ghost use Rattle.edit.specs.View.{size, view, at};
ghost use Rattle.host.specs.Drawing.{drawn_all};
ghost use Rattle.host.specs.Carrying.{is_lock, is_light, some_step, taking, held_of};

use crate::draw::{draw, effect_of, protects};
use crate::state::State;
use edit::cell::on_screen;
use screen::interface::Screen;
use text::reader::Reader;

// Carries out the steps of a text, with what it writes protected or not at first.
#[tactic(auto, using(crate::proofs::Steps::at_view))]
fn carry_steps<S: Screen>(screen: &mut S, state: &mut State, protected: bool, text: &[u8])
    requires { state.old.cursor < size (S.grid screen.old) }
    ensures rest { S.rest screen.new ≡ S.rest screen.old }
    ensures view { view (S.grid screen.new) state.new.cursor ≡ drawn_all protected (steps_of text.now) (at (S.grid screen.old) state.old.cursor) }
    ensures locked { state.new.locked ≡ (state.old.locked || some_step is_lock (steps_of text.now)) }
    ensures light { state.new.light ≡ (state.old.light || some_step is_light (steps_of text.now)) }
    ensures held { held_of state.new ≡ option_or (held_of state.old) (taking protected (steps_of text.now) (at (S.grid screen.old) state.old.cursor)) }
{
    let mut mark = protected;
    for step in Reader::new(text) {
        state.note(screen, effect_of(step));
        state.cursor = draw(screen, state.cursor, mark, step);
        mark = protects(mark, step);
    }
}

// Carries out a host text; it starts open and unlocks the keyboard, which a lock code or a held text locks. A cursor
// off the screen counts as a place going round. The answer tells whether a transmission was taken up.
#[tactic(auto, using(crate::proofs::Steps::at_again))]
pub fn carry_out<S: Screen>(screen: &mut S, state: &mut State, text: &[u8]) -> bool
    ensures rest { S.rest screen.new ≡ S.rest screen.old }
    ensures view { view (S.grid screen.new) state.new.cursor ≡ drawn_all false (steps_of text.now) (at (S.grid screen.old) state.old.cursor) }
    ensures locked { state.new.locked ≡ (some_step is_lock (steps_of text.now) || is_some (held_of state.new)) }
    ensures light { state.new.light ≡ (state.old.light || some_step is_light (steps_of text.now)) }
    ensures held { held_of state.new ≡ option_or (held_of state.old) (taking false (steps_of text.now) (at (S.grid screen.old) state.old.cursor)) }
    ensures answer { result ≡ (is_some (held_of state.new) && not (is_some (held_of state.old))) }
{
    let held = state.is_held();
    state.cursor = on_screen(screen, state.cursor);
    state.locked = false;
    carry_steps(screen, state, false, text);
    let holds = state.is_held();
    state.locked |= holds;
    holds && !held
}
