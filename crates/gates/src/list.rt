// A list of gates of a fixed length.
ghost use Rattle.std.specs.Prelude.{◌≡◌, ◌^◌, ◌≤◌, true, vec_capacity};
ghost use Rattle.gates.specs.Graph.{ordered};

use crate::gate::Gate;

// The number of places is the capacity of the `Vec`, reserved when it is made, so that no operation allocates.
// Its methods stand in a file of their own: a struct with ghost fields imports every `ghost use` of its file.
#[derive(Drop)]
pub struct Gates {
    pub(crate) gates: Vec<Gate>,
    ghost few: { vec_capacity gates ≤ 2 ^ 32 },
    ghost order: { ordered gates.items ≡ true },
}
