// Builds a stack, and has it visited.
ghost use Rattle.std.specs.Prelude.{◌≡◌};
ghost use Rattle.stack.specs.declared.build.BuildError.TheVariants.{Refused, OutOfMemory};

use crate::choice::{Dimensions, Layer, Stack, Store};
use crate::lowest::Stacked;
use screen::refusal::Refusal;
use std::alloc::{AllocError, Global};
use std::marker::PhantomData;
use stores::map_store::MapStore;
use stores::size::Size;
use stores::word_store::WordStore;
use turning::turning::Turning;
use window::extent::Extent;
use window::window::Window;

// A store never touches words further on, so an area of more need not be made.
const MOST_WORDS: usize = 4096;

// What is done with a screen, whatever stack it is, and what that answers.
pub trait Visitor {
    type Answer;

    fn visit<S: Stacked>(&mut self, screen: &mut S) -> Self::Answer;
}

// Why a stack cannot be built.
#[derive(Clone, Copy, PartialEq, Eq, Debug)]
pub enum BuildError {
    Refused(Refusal),
    OutOfMemory,
}

impl From<Refusal> for BuildError {
    ghost from_gives = { λ refusal e. e ≡ Refused refusal };

    fn from(refusal: Refusal) -> BuildError {
        BuildError::Refused(refusal)
    }
}

impl From<AllocError> for BuildError {
    ghost from_gives = { λ _ e. e ≡ OutOfMemory };

    fn from(_e: AllocError) -> BuildError {
        BuildError::OutOfMemory
    }
}

// Room for so many layers over a screen. Each level of a stack has a type of its own, so the types count the levels.
trait Room {
    // The layers stand over the screen, the innermost first, and the outermost is visited.
    fn over<S: Stacked, V: Visitor>(
        screen: &mut S,
        layers: &[Layer],
        visitor: &mut V,
    ) -> Result<V::Answer, Refusal>;
}

struct Full;

struct OneMore<N>(PhantomData<N>);

impl Room for Full {
    fn over<S: Stacked, V: Visitor>(
        screen: &mut S,
        _layers: &[Layer],
        visitor: &mut V,
    ) -> Result<V::Answer, Refusal> {
        Ok(visitor.visit(screen))
    }
}

impl<N: Room> Room for OneMore<N> {
    fn over<S: Stacked, V: Visitor>(
        screen: &mut S,
        layers: &[Layer],
        visitor: &mut V,
    ) -> Result<V::Answer, Refusal> {
        match layers.split_last() {
            None => Ok(visitor.visit(screen)),
            Some((Layer::Turning, outer)) => N::over(&mut Turning::new(screen), outer, visitor),
            Some((Layer::Window(size), outer)) => {
                let extent = Extent::within(screen, size.rows, size.columns)?;
                N::over(&mut Window::new(screen, extent), outer, visitor)
            }
        }
    }
}

// As many as a stack has at most.
type Layers = OneMore<OneMore<OneMore<OneMore<Full>>>>;

fn over_words<V: Visitor>(
    area: &mut [u16],
    size: Dimensions,
    layers: &[Layer],
    visitor: &mut V,
) -> Result<V::Answer, Refusal> {
    let size = Size::in_area(area, size.rows, size.columns)?;
    Layers::over(&mut WordStore::new(area, size), layers, visitor)
}

fn over_bits<V: Visitor>(
    size: Dimensions,
    layers: &[Layer],
    visitor: &mut V,
) -> Result<V::Answer, Refusal> {
    let size = Size::new(size.rows, size.columns)?;
    Layers::over(&mut MapStore::new(size), layers, visitor)
}

// Builds the stack and has its outermost screen visited.
pub fn build<V: Visitor>(
    heap: Global,
    stack: &Stack,
    visitor: &mut V,
) -> Result<V::Answer, BuildError> {
    let layers = stack.layers.as_slice();
    match stack.store {
        Store::Words { size, area } => {
            let mut words = vec![in heap; 0u16; area.min(MOST_WORDS)]?;
            Ok(over_words(&mut words, size, layers, visitor)?)
        }
        Store::Bits(size) => Ok(over_bits(size, layers, visitor)?),
    }
}
