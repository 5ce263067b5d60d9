//! Where instructions come from that this tool wrote.

/// Where an instruction of the output comes from.
#[derive(Clone, Copy)]
pub enum Origin {
    /// The client's instruction of this index.
    Client(u32),
    /// An instruction of the block that stands for the client's instruction `site`.
    Block { site: u32, place: u32 },
}
