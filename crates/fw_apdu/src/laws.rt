//! Laws of requests and responses, over the definitions alone.

ghost use Rattle.fw_apdu.specs.Laws.{OneRequest, OneResponse, RequestIsNoResponse, OneRequestFault, OneResponseFault};

/// A byte string spells at most one request.
pub fn one_request()
    ensures { OneRequest }
{
    fw_axdr::laws::one_spelling();
}

/// A byte string spells at most one response.
pub fn one_response()
    ensures { OneResponse }
{
    fw_axdr::laws::one_spelling();
}

/// A byte string that spells a request spells no response.
pub fn request_is_no_response()
    ensures { RequestIsNoResponse }
{}

/// A byte string that has a fault spells no request, and has no other fault.
pub fn one_request_fault()
    ensures { OneRequestFault }
{
    fw_axdr::laws::one_spelling();
    fw_axdr::laws::one_fault();
}

/// A byte string that has a fault spells no response, and has no other fault.
pub fn one_response_fault()
    ensures { OneResponseFault }
{
    fw_axdr::laws::one_spelling();
    fw_axdr::laws::one_fault();
}
