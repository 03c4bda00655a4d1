// The store under a stack, seen through its layers.
ghost use Rattle.std.specs.Prelude.{◌≡◌};

use screen::interface::Screen;
use stores::map_store::MapStore;
use stores::word_store::WordStore;
use turning::turning::Turning;
use window::window::Window;

pub trait Stacked: Screen {
    type Lowest: Screen;

    ghost store: { Self → Self.Lowest };

    fn lowest(&self) -> &Self::Lowest
        ensures { result.now ≡ store self.now };
}

impl Stacked for MapStore {
    type Lowest = MapStore;

    ghost store = { λ s. s };

    fn lowest(&self) -> &MapStore {
        self
    }
}

impl<'a> Stacked for WordStore<'a> {
    type Lowest = WordStore<'a>;

    ghost store = { λ s. s };

    fn lowest(&self) -> &WordStore<'a> {
        self
    }
}

impl<'s, S: Stacked> Stacked for Turning<'s, S> {
    type Lowest = S::Lowest;

    ghost store = { λ s. S.Stacked.store s.below.now };

    fn lowest(&self) -> &S::Lowest {
        self.below().lowest()
    }
}

impl<'s, S: Stacked> Stacked for Window<'s, S> {
    type Lowest = S::Lowest;

    ghost store = { λ s. S.Stacked.store s.below.now };

    fn lowest(&self) -> &S::Lowest {
        self.below().lowest()
    }
}
