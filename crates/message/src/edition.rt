// The editions of the protocol.

// The old one has no Repository in an Index, an IndexUpdate and a Request, and no Options.
#[derive(Clone, Copy)]
pub enum Edition {
    Old,
    New,
}
