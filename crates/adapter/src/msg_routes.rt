// For the host's own routing: what a path says, and what an explicit message asks.
ghost use Rattle.std.specs.Prelude.{◌≡◌};
ghost use Rattle.rules.specs.Routing.{path_answer, request_answer};
ghost use Rattle.msg_routing.specs.Answered.{answered};

// What a path holds, a record of 32 bytes. No: 4, 8.
pub fn threshtide_path(path: &[u8], out: &mut [u8]) -> u64
    ensures { (result, out.new) ≡ answered (path_answer path.now) out.old }
{
    app_answers::answers::number(msg_routing::tell_path(path, out))
}

// What an explicit message asks, a record of 20 bytes. No: 4, 8.
pub fn threshtide_request(message: &[u8], out: &mut [u8]) -> u64
    ensures { (result, out.new) ≡ answered (request_answer message.now) out.old }
{
    app_answers::answers::number(msg_routing::tell_request(message, out))
}
