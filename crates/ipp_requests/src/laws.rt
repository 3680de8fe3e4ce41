//! Laws on requests. The functions do nothing: their clauses are the laws.
ghost use Rattle.std.specs.Prelude.{◌≡◌, ℕ, true, false, Ok, is_some};
ghost use Rattle.ipp_names.specs.IppOperations.{operation_of};
ghost use Rattle.ipp_values.specs.declared.message.Message.{Message as MessageOf};
ghost use Rattle.ipp_requests.specs.declared.request.Request.{Request as RequestOf};
ghost use Rattle.ipp_requests.specs.IppChecks.{attributes_of, begins_with_both, has_known_charset, is_known_version, is_request_id, lacks_target};
ghost use Rattle.ipp_requests.specs.IppRequests.{request_of};

/// A message without charset, natural language or target is no request, and neither is one with an operation that is not offered.
pub fn requests_are_complete()
    ensures version { (m : MessageOf) (r : RequestOf) → request_of m ≡ Ok r → is_known_version m.version ≡ true }
    ensures number { (m : MessageOf) (r : RequestOf) → request_of m ≡ Ok r → is_request_id m.request_id ≡ true }
    ensures language { (m : MessageOf) (r : RequestOf) → request_of m ≡ Ok r → begins_with_both (attributes_of m) ≡ true }
    ensures target { (m : MessageOf) (r : RequestOf) → request_of m ≡ Ok r → lacks_target (operation_of m.code) (attributes_of m) ≡ false }
    ensures charset { (m : MessageOf) (r : RequestOf) → request_of m ≡ Ok r → has_known_charset (attributes_of m) ≡ true }
    ensures operation { (m : MessageOf) (r : RequestOf) → request_of m ≡ Ok r → is_some (operation_of m.code) ≡ true }
{}
