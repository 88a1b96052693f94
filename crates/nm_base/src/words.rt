//! Names and numbers that several layers share.

/// The user that is the manager alone. No operator may have this name.
pub const MANAGER: &str = "netm";

/// The module whose entries are the marks of change sets. No given module may have this name.
pub const MARKER: &str = "netm-marker";

/// How long a confirmed commit waits where nothing else is said, in seconds (RFC 6241 section 8.4.5.1).
pub const DEFAULT_TIMEOUT: u32 = 600;
