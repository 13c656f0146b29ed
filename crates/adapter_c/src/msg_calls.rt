// Explicit messages to the adapter's own objects.
ghost use Rattle.std.specs.Prelude.{◌≡◌};
ghost use Rattle.msg_answering.specs.Lifted.{lifted_message};

// How many bytes an upload position has; all zero is none.
#[unsafe(no_mangle)]
pub extern "C" fn threshtide_upload_size() -> u64
    ensures { result ≡ 8 }
{
    adapter::msg_calls::threshtide_upload_size()
}

// The reply to an explicit message; an upload of the EDS moves its position. No: 1, 8.
#[unsafe(no_mangle)]
pub extern "C" fn threshtide_message(
    state: &[u8],
    upload: &mut [u8],
    local: u32,
    mask: u32,
    message: &[u8],
    out: &mut [u8],
) -> u64
    ensures { (result, (upload.new, out.new)) ≡ lifted_message local mask message.now state.now upload.old out.old }
{
    adapter::msg_calls::threshtide_message(state, upload, local, mask, message, out)
}
