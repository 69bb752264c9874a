//! Legal moves as the edges of a graph of positions.

/// Where a move leads.
#[derive(Clone, Copy, PartialEq, Eq)]
pub enum Next<N, V> {
    /// To this position of the graph.
    Inside(N),
    /// Out of the graph (an exit), to a position with this value.
    Outside(V),
}

/// The default fills the places of a list that are not in use.
impl<N: Default, V> Default for Next<N, V> {
    fn default() -> Next<N, V> {
        Next::Inside(N::default())
    }
}

/// A legal move `mv`, whether the mover may play it in the restricted game (`free`), and where it
/// leads.
#[derive(Clone, Copy, PartialEq, Eq)]
pub struct Arm<M, N, V> {
    pub mv: M,
    pub free: bool,
    pub next: Next<N, V>,
}

/// The default fills the places of a list that are not in use.
impl<M: Default, N: Default, V> Default for Arm<M, N, V> {
    fn default() -> Arm<M, N, V> {
        Arm {
            mv: M::default(),
            free: false,
            next: Next::default(),
        }
    }
}
