//! The method of a request, against the methods of HTTP (RFC 9110, section 9): byte for byte, since their names tell case apart (section 9.1).
//! Every check of a method goes through `has_method`; which of them a route has is said by the plans.
ghost use Rattle.std.specs.Prelude.{◌≡◌};
ghost use Rattle.fts_wire.specs.Answered.{request_data};
ghost use Rattle.fts_routes.specs.Replies.{has_method};

use fts_wire::Request;
use http::Method;

/// Whether a request has this method.
pub fn has_method(request: &Request<'_>, method: &Method) -> bool
    ensures { result ≡ has_method (request_data request.now) method.now }
{
    request.method == method.as_str()
}
