/// A return service. A frame of RAF has a quality in a transfer buffer, one of RCF none.
#[derive(Clone, Copy, Debug, PartialEq, Eq)]
pub enum ReturnKind {
    /// Return all frames (CCSDS 911.1-B).
    Raf,
    /// Return channel frames (CCSDS 911.2-B).
    Rcf,
}
