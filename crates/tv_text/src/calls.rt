ghost use Rattle.std.specs.Prelude.{◌≡◌, ◌↔◌, IsTrue};
ghost use Rattle.tv_text.specs.Calls.{call_after, Fails};

// Whether the call with this number is one of those that fail.
pub(crate) fn fails_at(fails: &[u64], call: Option<u64>) -> bool
    ensures { IsTrue result ↔ Fails fails.now call }
{
    match call {
        Some(number) => fails.contains(&number),
        None => false,
    }
}

// The number of the call after this one.
pub(crate) fn next_call(call: Option<u64>) -> Option<u64>
    ensures { result ≡ call_after call }
{
    match call {
        Some(number) if number < u64::MAX => Some(number + 1),
        _ => None,
    }
}
