// The box that a form gives: four numbers, and the kind of the record that they stood in. The programs over a form take it from here.
ghost use Rattle.std.specs.Prelude.{◌≡◌};
ghost use Rattle.form.specs.boxes.FormBox.{box_by};

use plane::given::Given;

// The kind of a form that gives its box's edges; kind 1 gives center and size.
pub const EDGES: u8 = 7;

// By its edges or by its center and size.
pub fn box_of(kind: u8, numbers: [f64; 4]) -> Given
    ensures { result ≡ box_by kind numbers }
{
    if kind == EDGES {
        return plane::given::by_edges(numbers[0], numbers[1], numbers[2], numbers[3]);
    }
    plane::given::by_size(numbers[0], numbers[1], numbers[2], numbers[3])
}
