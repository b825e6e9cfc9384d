// What a service instance serves.

/// The service of an instance.
#[derive(Clone, Copy, Debug, PartialEq, Eq)]
pub enum ServiceKind {
    /// Return all frames (CCSDS 911.1-B).
    Raf,
    /// Return channel frames (CCSDS 911.2-B).
    Rcf,
    /// Forward CLTU (CCSDS 912.1-B). A site has at most one such instance.
    Cltu,
}
