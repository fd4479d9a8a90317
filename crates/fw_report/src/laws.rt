//! A law of traces. A caller cites it by calling it: nothing is done.

ghost use Rattle.fw_report.specs.Laws.{OneTrace};

/// What was sent has one trace.
pub fn one_trace()
    ensures { OneTrace }
{
    fw_wrapper::laws::one_frame();
    fw_wrapper::laws::wrapped_has_no_fault();
    fw_names::laws::one_name();
    fw_apdu::laws::one_request();
    fw_apdu::laws::one_response();
    fw_apdu::laws::one_request_fault();
    fw_apdu::laws::one_response_fault();
}
