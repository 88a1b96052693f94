//! What is read of events and requests, before their edits and selections have numbers and their sessions users.

use nm_base::{DeviceNo, Label};
use nm_proto::{DefaultOperation, Event, Listed, Request};

/// What an operator asks as it was read, before its edit or selection has a number and its session a user.
#[derive(Drop)]
pub enum ReadRequest<E> {
    /// A session of the operator's own user.
    Open,
    /// Another request without an edit or a selection.
    Known(Request),
    WithEdit {
        default_operation: DefaultOperation,
        edit: E,
    },
    /// A partial lock of the nodes that these texts select.
    WithSelect {
        texts: Listed<Label>,
    },
}

/// An event as it was read, before its edit has a number.
#[derive(Drop)]
pub enum ReadEvent<E> {
    /// An event without a request.
    Other(Event),
    Asked {
        operator: u32,
        device: DeviceNo,
        request: ReadRequest<E>,
    },
}
