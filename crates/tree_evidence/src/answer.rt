use codec_base::Bytes;

/// What two lists of elements and the roots of their trees show.
#[derive(Debug, Drop)]
pub enum Clash<D> {
    /// The lists are one, and so are the numbers of inactive peaks.
    Equal,
    /// The roots, which differ: the first tree's and the second's.
    RootsDiffer(D, D),
    /// Two different hash inputs with one digest: one of the first tree and one of the second.
    Clash(Bytes, Bytes),
}
