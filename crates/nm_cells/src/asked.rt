//! What a caller is told of a request.

use nm_proto::Reply;

/// What a caller is told of a request. Places in the device's history are counted from 1.
#[derive(Drop)]
pub enum Asked {
    /// The request was done, and this is its reply.
    Answered { position: u32, reply: Reply },
    /// The call was broken by the entry at this place, or by one that the caller may not know of, which is told as 0.
    Broken { position: u32 },
}
