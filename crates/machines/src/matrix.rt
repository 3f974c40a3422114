// A square table of weights, row by row, in memory that is lent.
mod parts;

ghost use Rattle.machines.specs.Shapes.{Square};

// A table of at most 64 states. It fills its memory.
#[derive(Drop)]
pub(crate) struct Matrix<'a, K> {
    states: usize,
    weights: &'a mut [K],
    ghost square: { Square states weights.now },
}
