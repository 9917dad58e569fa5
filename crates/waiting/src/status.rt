// Reading a status byte.
ghost use Rattle.std.specs.Prelude.{◌≡◌};
ghost use Rattle.waiting.specs.Polling.{is_ready};

// Whether bits 3 and 0 are both clear.
pub(crate) fn is_ready(status: u8) -> bool
    ensures { result ≡ is_ready status }
{
    (status / 8 % 2 == 0) & (status % 2 == 0)
}
