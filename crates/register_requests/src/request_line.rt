//! The line of a request.
ghost use Rattle.register_requests.specs.Request.{IsItem};

use crate::field_values::FromBytes;
use crate::request::Request;

/// How many bytes a request line has at most, without its LF.
pub const MAX_LINE_LENGTH: usize = 1024;

/// The request whose line this is, without its LF, or `None` where it is the line of no request. A
/// line has at most [`MAX_LINE_LENGTH`] bytes.
pub fn read_request(line: &[u8]) -> Option<Request>
    ensures { IsItem line.now result }
{
    if line.len() > MAX_LINE_LENGTH {
        return None;
    }
    Request::from_bytes(line)
}
