// What a stack is made of. All of it is copied, so the layers stand in an array with their number, and in no `ArrayVec`.
ghost use Rattle.std.specs.Prelude.{◌≤◌};

// A size as a script names it: any two numbers.
#[derive(Clone, Copy)]
pub struct Dimensions {
    pub rows: usize,
    pub columns: usize,
}

#[derive(Clone, Copy)]
pub enum Store {
    // in an area of so many words
    Words { size: Dimensions, area: usize },
    Bits(Dimensions),
}

#[derive(Clone, Copy, Default)]
pub enum Layer {
    #[default]
    Turning,
    Window(Dimensions),
}

// At most so many layers stand over a store.
pub const MOST: usize = 4;

// Some layers, the outermost first.
#[derive(Clone, Copy)]
pub struct Layers {
    items: [Layer; MOST],
    count: usize,
    ghost fits: { count ≤ 4 },
}

impl Layers {
    ghost use Rattle.std.specs.Prelude.{◌≡◌, [], ◌∷◌, ◌++◌, length, MatchResult};
    ghost use Rattle.stack.specs.Choice.{layers_of};

    pub fn new() -> Layers
        ensures { layers_of result ≡ [] }
    {
        Layers {
            items: [Layer::default(); MOST],
            count: 0,
        }
    }

    // Puts a layer below the others, or answers it where there are as many as a stack has.
    pub fn try_push(&mut self, layer: Layer) -> Result<(), Layer>
        ensures { MatchResult result (λ _. layers_of self.new ≡ layers_of self.old ++ (layer ∷ [])) (λ l. (l ≡ layer) × (self.new ≡ self.old) × (length (layers_of self.old) ≡ 4)) }
    {
        if self.count == MOST {
            return Err(layer);
        }
        self.items[self.count] = layer;
        self.count += 1;
        Ok(())
    }

    pub fn as_slice(&self) -> &[Layer]
        ensures { result.now ≡ layers_of self.now }
    {
        &self.items[..self.count]
    }
}

// A store, and the layers over it.
#[derive(Clone, Copy)]
pub struct Stack {
    pub store: Store,
    pub layers: Layers,
}
