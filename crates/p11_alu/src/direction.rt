/// Which way a shift or a rotation moves bits.
#[derive(Clone, Copy)]
pub enum Direction {
    Left,
    Right,
}
