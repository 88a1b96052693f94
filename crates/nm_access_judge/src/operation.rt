//! The names of operations.

ghost use Rattle.std.specs.Prelude.{◌≡◌};
ghost use Rattle.nm_access_judge.specs.Judging.{operation_of};

use nm_proto::Request;

/// The name by which rules know the operation of a request: the request's own word, but for those that NETCONF calls otherwise
/// (RFC 6241 sections 7.2, 7.9 and 8.3.4.2).
pub fn operation_of(request: &Request) -> &'static str
    ensures { result.now ≡ operation_of request.now }
{
    match request {
        Request::Edit { .. } => "edit-config",
        Request::Discard => "discard-changes",
        Request::Kill { .. } => "kill-session",
        _ => request.word().text(),
    }
}
