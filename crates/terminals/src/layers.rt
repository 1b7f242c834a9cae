// The service layers 1 and their places in the table (EN 300 392-5, clauses 6.17.28, 6.17.40 and 6.17.41).
ghost use Rattle.std.specs.Prelude.{◌≡◌, ◌<◌, ◌≤◌, get_or};
ghost use Rattle.terminals.specs.Layers.{layer_at, places, nowhere};
ghost use Rattle.terminals.specs.Inner.{Has};

// How many places all layers have.
pub(crate) const PLACES: usize = 269;

// A layer: its places stand in the table from `start` on, `count` of them; if it takes a third field, the values from `first` on name them.
#[derive(Clone, Copy)]
pub struct Layer {
    pub start: usize,
    pub count: usize,
    pub first: Option<usize>,
}

// CC, MM, SDS, SDS-TL and Packet Data. Layers stay numbers: a line may say any, and the text writes them.
const LAYERS: [Layer; 5] = [
    Layer {
        start: 0,
        count: 2,
        first: Some(0),
    },
    Layer {
        start: 2,
        count: 5,
        first: Some(10),
    },
    Layer {
        start: 7,
        count: 5,
        first: Some(20),
    },
    Layer {
        start: 12,
        count: 256,
        first: Some(0),
    },
    Layer {
        start: 268,
        count: 1,
        first: None,
    },
];

// The highest layer.
pub(crate) const PACKET_DATA: usize = 4;

// A place: its layer, and the third field that names it, service layer 2 or PID.
#[derive(Clone, Copy)]
pub struct Place {
    pub layer: usize,
    pub third: Option<usize>,
}

// A layer, by its number.
pub(crate) fn layer_of(layer: usize) -> Layer
    requires { layer ≤ 4 }
    ensures { result ≡ layer_at layer }
{
    LAYERS[layer]
}

// The layer that has a place.
fn layer_with(place: usize) -> usize
    requires { place < 269 }
    ensures { Has result place }
{
    for layer in 0..PACKET_DATA {
        let row = layer_of(layer);
        if place < row.start + row.count {
            return layer;
        }
    }
    PACKET_DATA
}

// The place at an index of the table.
pub(crate) fn place_at(index: usize) -> Place
    requires { index < 269 }
    ensures { result ≡ get_or places index nowhere }
{
    let layer = layer_with(index);
    let row = layer_of(layer);
    // A `match` in place of `map`: what the sum needs is known here, and not in a closure.
    match row.first {
        Some(first) => Place {
            layer,
            third: Some(first + (index - row.start)),
        },
        None => Place { layer, third: None },
    }
}
