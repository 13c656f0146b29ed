// Explicit messages to the adapter's own objects.
ghost use Rattle.std.specs.Prelude.{◌≡◌};
ghost use Rattle.msg_answering.specs.Lifted.{lifted_message};

// How many bytes an upload position has; all zero is none.
pub fn threshtide_upload_size() -> u64
    ensures { result ≡ 8 }
{
    8
}

// The reply to an explicit message; an upload of the EDS moves its position. No: 1, 8.
pub fn threshtide_message(
    state: &[u8],
    upload: &mut [u8],
    local: u32,
    mask: u32,
    message: &[u8],
    out: &mut [u8],
) -> u64
    ensures { (result, (upload.new, out.new)) ≡ lifted_message local mask message.now state.now upload.old out.old }
{
    if !state_image::test_state(state) {
        return 1;
    }
    if !msg_answering::position_tested(state, upload) {
        return 1;
    }
    if out.len() < 516 {
        return 8;
    }
    msg_answering::message(state, upload, local, mask, message, out) as u64 * 256
}
