// How edges relate to regions.

/// How an edge relates to the regions round its source.
#[derive(Clone, Copy)]
pub enum EdgeKind {
    /// It leads back to the head of one of them.
    Back,
    /// It leads to none of their heads, and leaves none of them.
    Inside,
    /// It leads to none of their heads, and leaves some of them. The number is that of the
    /// outermost region that it leaves.
    Exit(u32),
}
