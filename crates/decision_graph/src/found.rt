//! A graph and its value.

/// A decision graph that was found, ride by ride or with one table for each place, and its value: a
/// score of its strategy, or bounds on the expected arrival in nanoseconds since 1970-01-01.
#[derive(Drop)]
pub struct Found<G, V> {
    /// The graph.
    pub graph: G,
    /// The value, which covers the strategy of the graph and is below every safe one.
    pub value: V,
}
