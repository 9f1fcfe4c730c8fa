//! The invariant of requests, for proofs.
ghost use Rattle.std.specs.Prelude.{◌≡◌, None, All};
ghost use Rattle.lrc_code.specs.Code.{AreBytes};
ghost use Rattle.lrc_code.specs.Requests.{refusal as refusal_of};

use lrc_code::Request;

/// What every request keeps: there is no reason to refuse it, and its survivors are bytes. It is called for the proof alone, which
/// learns this of a request only from the contract of one of its methods.
pub(crate) fn learn_invariant(request: &Request)
    ensures accepted { refusal_of request.now ≡ None }
    ensures bytes { All (λ s. AreBytes s.bytes) request.now.survivors }
{
    let _ = request.length();
}
